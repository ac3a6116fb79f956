/// Why a text has no tree.
#[derive(Clone, Copy, Debug, PartialEq, Eq)]
pub enum ParseError {
    /// No program begins with the tokens up to this one and with it.
    Syntax {
        /// The token's index in the text, from 0; the number of tokens stands for the end.
        token: u32,
        /// What is wrong: 201 to 205, as listings name it.
        code: u16,
    },
    Memory,
}
