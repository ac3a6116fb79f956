use mp_base::TextLines;
use mp_text::Texts;

/// What a session holds between two commands.
#[derive(Drop)]
pub struct State {
    /// The versions of the text.
    pub versions: Texts,
    /// The lines that are the input of later runs.
    pub input: TextLines,
}
