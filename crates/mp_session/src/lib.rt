//! A session: the versions of a text, and the commands that are obeyed on them.
//!
//! What a session replies to a command is one definition, `reply`; what it writes over a whole script is another,
//! `transcript`, a fold of the replies over the script's commands. The crate promises that `Session::obey` writes
//! the reply and holds the state after it. The listing of a text is a definition too, `text_listing`: its lexical
//! errors, else its first syntax error, else what can be said of a program at this stage. The crate reads nothing: the
//! bytes of a script reach it as commands. It stands on `mp_text` for the versions, on `mp_script` for the commands, on
//! `mp_lex`, `mp_parse` and `mp_diag` for listings, and on `mp_edge` for the sink.
#![tactic(auto)]

mod departure;
pub mod laws;
mod listing;
mod replies;
mod session;
mod state;
mod texts;

pub use replies::list_transcript;
pub use session::{Session, SessionError, Turn};
pub use state::State;
