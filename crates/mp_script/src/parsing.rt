ghost use Rattle.std.specs.Prelude.{◌≡◌, ◌<◌, ◌≤◌, [], IfErr, IfOk, None, Some, Ok, Err, length};
ghost use Rattle.mp_script.specs.Meaning.{alone, by_words, chomped, meant, show_verb, verb_of, wants_of};
ghost use Rattle.mp_script.specs.Words.{behind_word};

use crate::access::is_access;
use crate::commands::{BadLine, Command, Verb};
use crate::keywords::{Keyword, keyword_of};
use crate::numbers::{numbers_of, one, perhaps, three, two};
use crate::words::{behind_word, words_of};
use mp_base::{Bytes, COMMAND_LIMIT, Memory, TextLine, TextLines};
use std::alloc::Global;

#[tactic(auto, unfolding(crate::specs::Meaning::chomped))]
fn chomped(line: &[u8]) -> &[u8]
    ensures { result.now ≡ chomped line.now }
{
    if !line.is_empty() && line[line.len() - 1] == b'\r' {
        &line[..line.len() - 1]
    } else {
        line
    }
}

// How many lines a command takes.
#[tactic(auto, unfolding(crate::specs::Meaning::wants_of))]
fn wants_of(verb: &Verb) -> u32
    ensures { result ≡ wants_of verb.now }
{
    match verb {
        Verb::Insert { count, .. } | Verb::Replace { count, .. } | Verb::Input { count } => *count,
        Verb::Sub { .. } => 1,
        Verb::Nothing
        | Verb::Delete { .. }
        | Verb::Back { .. }
        | Verb::Text { .. }
        | Verb::List { .. }
        | Verb::Ready
        | Verb::Break { .. }
        | Verb::Clear { .. }
        | Verb::Run { .. }
        | Verb::Go { .. }
        | Verb::Step { .. }
        | Verb::Show { .. }
        | Verb::Chain
        | Verb::Kill
        | Verb::Quit => 0,
    }
}

// The verb of a keyword that nothing follows.
fn alone(verb: Verb, numbers: &[Option<u32>]) -> Option<Verb>
    ensures { result ≡ alone verb numbers.now }
{
    if numbers.is_empty() { Some(verb) } else { None }
}

// The verb of a keyword that an access follows.
fn show_verb(alloc: Global, access: &[u8]) -> Result<Option<Verb>, Memory>
    requires { length access.now ≤ COMMAND_LIMIT }
    ensures { IfOk result (λ verb. verb ≡ show_verb access.now) }
{
    if is_access(alloc, access)? {
        let access = Bytes::of(alloc, access)?;
        return Ok(Some(Verb::Show { access }));
    }
    Ok(None)
}

// The verb of a keyword by what follows it.
fn verb_of(
    alloc: Global,
    keyword: Keyword,
    numbers: &[Option<u32>],
    access: &[u8],
) -> Result<Option<Verb>, Memory>
    requires { length access.now ≤ COMMAND_LIMIT }
    ensures { IfOk result (λ verb. verb ≡ verb_of keyword numbers.now access.now) }
{
    match keyword {
        Keyword::Insert => Ok(two(numbers).map(|(after, count)| Verb::Insert { after, count })),
        Keyword::Delete => Ok(two(numbers).map(|(first, last)| Verb::Delete { first, last })),
        Keyword::Replace => Ok(three(numbers).map(|(first, last, count)| Verb::Replace {
            first,
            last,
            count,
        })),
        Keyword::Sub => Ok(three(numbers).map(|(line, column, count)| Verb::Sub {
            line,
            column,
            count,
        })),
        Keyword::Back => Ok(one(numbers).map(|version| Verb::Back { version })),
        Keyword::Text => Ok(perhaps(numbers).map(|version| Verb::Text { version })),
        Keyword::Listing => Ok(perhaps(numbers).map(|version| Verb::List { version })),
        Keyword::Ready => Ok(alone(Verb::Ready, numbers)),
        Keyword::Input => Ok(one(numbers).map(|count| Verb::Input { count })),
        Keyword::Break => Ok(one(numbers).map(|line| Verb::Break { line })),
        Keyword::Clear => Ok(one(numbers).map(|line| Verb::Clear { line })),
        Keyword::Run => Ok(perhaps(numbers).map(|steps| Verb::Run { steps })),
        Keyword::Go => Ok(perhaps(numbers).map(|steps| Verb::Go { steps })),
        Keyword::Step => Ok(perhaps(numbers).map(|steps| Verb::Step { steps })),
        Keyword::Show => show_verb(alloc, access),
        Keyword::Where => Ok(alone(Verb::Chain, numbers)),
        Keyword::Kill => Ok(alone(Verb::Kill, numbers)),
        Keyword::Quit => Ok(alone(Verb::Quit, numbers)),
    }
}

// The verb of a line with these words.
fn by_words(alloc: Global, words: &[Bytes], line: &[u8]) -> Result<Option<Verb>, Memory>
    requires { length line.now ≤ COMMAND_LIMIT }
    ensures { IfOk result (λ verb. verb ≡ by_words words.now line.now) }
{
    if words.is_empty() {
        return Ok(Some(Verb::Nothing));
    }
    match keyword_of(words[0].get()) {
        None => Ok(None),
        Some(keyword) => {
            let numbers = numbers_of(alloc, &words[1..])?;
            verb_of(alloc, keyword, &numbers, behind_word(line))
        }
    }
}

// The verb of a line of a script.
#[tactic(auto, unfolding(crate::specs::Meaning::meant))]
fn meant(alloc: Global, line: &[u8]) -> Result<Option<Verb>, Memory>
    ensures verb { IfOk result (λ verb. verb ≡ meant line.now) }
    ensures long { COMMAND_LIMIT < length (chomped line.now) → result ≡ Ok None }
{
    let bytes = chomped(line);
    if bytes.len() > COMMAND_LIMIT {
        return Ok(None);
    }
    let words = words_of(alloc, bytes)?;
    by_words(alloc, &words, bytes)
}

/// The command that a line of a script is, with none of the lines that it takes. A byte 13 at the end of the line does
/// not count. It is `Bad` exactly where the line is then longer than `COMMAND_LIMIT` bytes or has no command's form.
pub fn command(alloc: Global, line: &TextLine) -> Result<Command, BadLine>
    ensures verb { IfOk result (λ command. meant line.now ≡ Some command.verb) }
    ensures wants { IfOk result (λ command. command.wants ≡ wants_of command.verb) }
    ensures lines { IfOk result (λ command. command.lines ≡ []) }
    // A number has at most 9 digits.
    ensures few { IfOk result (λ command. command.wants < 1000000000) }
    ensures bad { IfErr result (λ why. why ≡ BadLine.Bad → meant line.now ≡ None) }
    // Nothing is taken of the memory for a line that is too long.
    ensures long { COMMAND_LIMIT < length (chomped line.now) → result ≡ Err BadLine.Bad }
{
    match meant(alloc, line.get()) {
        Err(_) => Err(BadLine::Memory),
        Ok(None) => Err(BadLine::Bad),
        Ok(Some(verb)) => Ok(Command {
            wants: wants_of(&verb),
            verb,
            lines: TextLines::new(alloc),
        }),
    }
}
