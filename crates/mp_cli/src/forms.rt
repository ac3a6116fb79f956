ghost use Rattle.std.specs.Prelude.{◌≡◌, map, string_bytes};
ghost use Rattle.mp_cli.specs.Forms.{form_of};

/// What the words after the program's name ask for.
#[derive(Clone, Copy)]
pub enum Form {
    /// `list`: the listing of the text that is read.
    List,
    /// `serial`: the replies to the script that is read.
    Serial,
}

/// The form of these words, if they have one.
pub(crate) fn form_of(words: &[String]) -> Option<Form>
    ensures { result ≡ form_of (map string_bytes words.now) }
{
    let [word] = words else {
        return None;
    };
    if word.as_str() == "list" {
        return Some(Form::List);
    }
    if word.as_str() == "serial" {
        return Some(Form::Serial);
    }
    None
}
