ghost use Rattle.std.specs.Prelude.{◌≡◌};
ghost use Rattle.mp_script.specs.Keywords.{keyword_of, keywords, spelling};

/// The first word of a command, which says what the command does.
#[derive(Clone, Copy)]
pub enum Keyword {
    Insert,
    Delete,
    Replace,
    Sub,
    Back,
    Text,
    Listing,
    Ready,
    Input,
    Break,
    Clear,
    Run,
    Go,
    Step,
    Show,
    Where,
    Kill,
    Quit,
}

// All keywords.
fn keywords() -> &'static [Keyword]
    ensures { result.now ≡ keywords }
{
    &[
        Keyword::Insert,
        Keyword::Delete,
        Keyword::Replace,
        Keyword::Sub,
        Keyword::Back,
        Keyword::Text,
        Keyword::Listing,
        Keyword::Ready,
        Keyword::Input,
        Keyword::Break,
        Keyword::Clear,
        Keyword::Run,
        Keyword::Go,
        Keyword::Step,
        Keyword::Show,
        Keyword::Where,
        Keyword::Kill,
        Keyword::Quit,
    ]
}

// The bytes of a keyword.
fn spelling(keyword: Keyword) -> &'static [u8]
    ensures { result.now ≡ spelling keyword }
{
    match keyword {
        Keyword::Insert => b"insert",
        Keyword::Delete => b"delete",
        Keyword::Replace => b"replace",
        Keyword::Sub => b"sub",
        Keyword::Back => b"back",
        Keyword::Text => b"text",
        Keyword::Listing => b"list",
        Keyword::Ready => b"ready",
        Keyword::Input => b"input",
        Keyword::Break => b"break",
        Keyword::Clear => b"clear",
        Keyword::Run => b"run",
        Keyword::Go => b"go",
        Keyword::Step => b"step",
        Keyword::Show => b"show",
        Keyword::Where => b"where",
        Keyword::Kill => b"kill",
        Keyword::Quit => b"quit",
    }
}

// The keyword that a word is.
#[tactic(auto, unfolding(crate::specs::Keywords::keyword_of))]
pub(crate) fn keyword_of(word: &[u8]) -> Option<Keyword>
    ensures { result ≡ keyword_of word.now }
{
    keywords()
        .iter()
        .copied()
        .find(|keyword| spelling(*keyword) == word)
}
