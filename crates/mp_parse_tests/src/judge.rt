//! A slow judge of the parser: over short lists of tokens, whether a list is a program and where its first syntax error
//! stands.
//!
//! The program's input begins with the grammar, word for word as it stands in `docs/LANGUAGE.md`, and behind it families
//! of lists. The judge writes each family and, where `mp_parse::parse` answers to all of its lists as the grammar says,
//! how many lists there are. Else it writes the first list to which it does not.
//!
//! # How it is independent of the parser
//!
//! The judge knows no production: it reads them from the page. For a list of tokens it keeps every stack of places of
//! the grammar at which a derivation may go on behind them. Where no stack is left, no program begins with the list,
//! whatever follows. Where one is left, a program does: from each stack the judge goes on to an end, past all that may
//! be left out, and `parse` must answer that the whole list is a program. So there is no bound on the length of an
//! ending. The judge tells tokens by their spellings, between blanks; the lexer makes them for `parse` alone.
//!
//! Two rules do not stand in the notation. By it an `else` may belong to an `if` further out than the nearest. This
//! gives no more lists: an `if` that is followed by an `else` not its own can take it from the `if` around it. And the
//! lists are too short for the three limits, so that no error has code 203 or 204.
//!
//! # Families
//!
//! A family has a line with its name, one with tokens with which a program begins, one with the tokens of its alphabet
//! and one with a number n. Its lists have those first tokens and at most n tokens of the alphabet behind them, of which
//! at most one stands behind the first wrong one:
//!
//! - A list with which a program begins is one, or has code 202 at its end.
//! - Where no program begins with the list, the first wrong token has code 205 if a program stands before it, and else
//!   201, whether or not one more token follows.
//!
//! The four numbers count the programs among the lists, the other beginnings of programs, and the lists with 201 and
//! with 205 at their last token. Those in `stdout` were counted by another program, which builds the sets of sentences
//! and of their beginnings production by production.

mod errors;
mod families;
mod grammar;
mod notation;
mod parser;
mod stacks;

pub use families::answers;
