ghost use Rattle.std.specs.Prelude.{◌≡◌, ◌+◌, ◌-◌, ◌<◌, ◌≤◌, IfOk, MatchBool, MatchOption, OnOk, drop, false, length, max};
ghost use Rattle.mp_base.specs.declared.limits.TheConstants.{TEXT_LIMIT};
ghost use Rattle.mp_lex.specs.Windows.{CommentGoesOn, IsDecided, IsItemTo, IsRead, IsUndecided};
ghost use Rattle.mp_lex.specs.Lengths.{comment_len};
ghost use Rattle.mp_lex.specs.Split.{item_len};

use crate::ahead::{read_number, read_string, read_word};
use crate::items::item_end;
use mp_base::{Memory, Reader, Steps, TEXT_LIMIT};

/// The bytes of a text that were read, from a place on. Each is read once.
#[derive(Drop)]
pub(crate) struct Window {
    pub(crate) from: u32,
    pub(crate) bytes: Vec<u8>,
}

// Reads the next byte. The room for it is made before it is read, so each byte that was read is kept.
fn read<L, T: Reader<L>>(text: &T, window: &mut Window, steps: &mut Steps<L>) -> Result<(), Memory>
    requires short { length (T.bytes text.now) ≤ TEXT_LIMIT }
    requires read { IsRead (T.bytes text.now) window.old.from window.old.bytes.items }
    requires more { window.old.from + length window.old.bytes.items < length (T.bytes text.now) }
    ensures from { window.new.from ≡ window.old.from }
    ensures read { IsRead (T.bytes text.now) window.new.from window.new.bytes.items }
    ensures steps { steps.new + length window.old.bytes.items ≤ steps.old + length window.new.bytes.items }
    ensures grown { length window.old.bytes.items ≤ length window.new.bytes.items }
    ensures one { length window.new.bytes.items ≤ length window.old.bytes.items + 1 }
    ensures ok { OnOk result (length window.new.bytes.items ≡ length window.old.bytes.items + 1) }
{
    window.bytes.reserve(1)?;
    let at = window.from + window.bytes.len() as u32;
    let byte = text.byte(at, steps);
    window.bytes.push(byte)?;
    Ok(())
}

// Whether the text has a byte at a place, which is read where it was not.
pub(crate) fn has<L, T: Reader<L>>(
    text: &T,
    window: &mut Window,
    at: usize,
    steps: &mut Steps<L>,
) -> Result<bool, Memory>
    requires short { length (T.bytes text.now) ≤ TEXT_LIMIT }
    requires read { IsRead (T.bytes text.now) window.old.from window.old.bytes.items }
    requires at { at ≤ length window.old.bytes.items }
    ensures from { window.new.from ≡ window.old.from }
    ensures read { IsRead (T.bytes text.now) window.new.from window.new.bytes.items }
    ensures steps { steps.new + length window.old.bytes.items ≤ steps.old + length window.new.bytes.items }
    ensures grown { length window.old.bytes.items ≤ length window.new.bytes.items }
    ensures reach { length window.new.bytes.items ≤ max (length window.old.bytes.items) (at + 1) }
    ensures byte { IfOk result (λ here. MatchBool here (at < length window.new.bytes.items) (window.old.from + at ≡ length (T.bytes text.now))) }
{
    if at < window.bytes.len() {
        return Ok(true);
    }
    if at == text.len() as usize - window.from as usize {
        return Ok(false);
    }
    read(text, window, steps)?;
    Ok(true)
}

// Whether a comment is closed at a byte that was read; it may read the next one.
fn closes<L, T: Reader<L>>(
    text: &T,
    window: &mut Window,
    at: usize,
    steps: &mut Steps<L>,
) -> Result<bool, Memory>
    requires short { length (T.bytes text.now) ≤ TEXT_LIMIT }
    requires read { IsRead (T.bytes text.now) window.old.from window.old.bytes.items }
    requires at { at < length window.old.bytes.items }
    ensures from { window.new.from ≡ window.old.from }
    ensures read { IsRead (T.bytes text.now) window.new.from window.new.bytes.items }
    ensures steps { steps.new + length window.old.bytes.items ≤ steps.old + length window.new.bytes.items }
    ensures grown { length window.old.bytes.items ≤ length window.new.bytes.items }
    ensures reach { length window.new.bytes.items ≤ max (length window.old.bytes.items) (at + 2) }
    ensures goes_on { IfOk result (λ closed. closed ≡ false → CommentGoesOn (T.bytes text.now) (window.old.from + at)) }
{
    let byte = window.bytes[at];
    if byte == b'}' {
        return Ok(true);
    }
    if byte != b'*' {
        return Ok(false);
    }
    if !has(text, window, at + 1, steps)? {
        return Ok(false);
    }
    let next = window.bytes[at + 1];
    Ok(next == b')')
}

// Reads the rest of a comment, from past its opening, and at most a byte past it. A comment may be long, and to look
// for its end from its start at each byte that is read would take too long.
fn read_comment<L, T: Reader<L>>(
    text: &T,
    window: &mut Window,
    at: usize,
    steps: &mut Steps<L>,
) -> Result<(), Memory>
    requires short { length (T.bytes text.now) ≤ TEXT_LIMIT }
    requires read { IsRead (T.bytes text.now) window.old.from window.old.bytes.items }
    requires at { at ≤ length window.old.bytes.items }
    ensures from { window.new.from ≡ window.old.from }
    ensures read { IsRead (T.bytes text.now) window.new.from window.new.bytes.items }
    ensures steps { steps.new + length window.old.bytes.items ≤ steps.old + length window.new.bytes.items }
    ensures grown { length window.old.bytes.items ≤ length window.new.bytes.items }
    ensures reach { length window.new.bytes.items ≤ max (length window.old.bytes.items) (at + comment_len (drop (window.old.from + at) (T.bytes text.now)) + 1) }
{
    let mut end = at;
    'bytes: while has(text, window, end, steps)? {
        if closes(text, window, end, steps)? {
            return Ok(());
        }
        end += 1;
    }
    Ok(())
}

// Reads the comment, word, number or string that begins at a place, if one does.
fn read_ahead<L, T: Reader<L>>(
    text: &T,
    window: &mut Window,
    at: usize,
    steps: &mut Steps<L>,
) -> Result<(), Memory>
    requires short { length (T.bytes text.now) ≤ TEXT_LIMIT }
    requires read { IsRead (T.bytes text.now) window.old.from window.old.bytes.items }
    requires at { at ≤ length window.old.bytes.items }
    requires more { window.old.from + at < length (T.bytes text.now) }
    ensures from { window.new.from ≡ window.old.from }
    ensures read { IsRead (T.bytes text.now) window.new.from window.new.bytes.items }
    ensures steps { steps.new + length window.old.bytes.items ≤ steps.old + length window.new.bytes.items }
    ensures grown { length window.old.bytes.items ≤ length window.new.bytes.items }
    ensures reach { length window.new.bytes.items ≤ max (length window.old.bytes.items) (at + item_len (drop (window.old.from + at) (T.bytes text.now)) + 2) }
{
    if !has(text, window, at, steps)? {
        return Ok(());
    }
    let first = window.bytes[at];
    if first.is_ascii_alphabetic() {
        read_word(text, window, at + 1, steps)?;
        return Ok(());
    }
    if first.is_ascii_digit() {
        read_number(text, window, at + 1, steps)?;
        return Ok(());
    }
    if first == b'\'' {
        read_string(text, window, at + 1, steps)?;
        return Ok(());
    }
    if first == b'{' {
        read_comment(text, window, at + 1, steps)?;
        return Ok(());
    }
    if first != b'(' {
        return Ok(());
    }
    if !has(text, window, at + 1, steps)? {
        return Ok(());
    }
    let second = window.bytes[at + 1];
    if second != b'*' {
        return Ok(());
    }
    read_comment(text, window, at + 2, steps)?;
    Ok(())
}

// The end of the item at a place, where the bytes that were read decide it.
fn decided(bytes: &[u8], at: usize, whole: bool) -> Option<usize>
    requires { at ≤ length bytes.now }
    ensures { MatchOption result (IsUndecided bytes.now at whole) (λ end. IsDecided bytes.now at end whole) }
{
    if at == bytes.len() {
        return None;
    }
    let end = item_end(bytes, at);
    if !whole && bytes.len() < end.saturating_add(2) {
        return None;
    }
    Some(end)
}

// Reads up to the end of an item, and at most two bytes past it, which decide where it ends.
pub(crate) fn read_item<L, T: Reader<L>>(
    text: &T,
    window: &mut Window,
    at: usize,
    steps: &mut Steps<L>,
) -> Result<usize, Memory>
    requires short { length (T.bytes text.now) ≤ TEXT_LIMIT }
    requires read { IsRead (T.bytes text.now) window.old.from window.old.bytes.items }
    requires at { at ≤ length window.old.bytes.items }
    requires more { window.old.from + at < length (T.bytes text.now) }
    ensures from { window.new.from ≡ window.old.from }
    ensures read { IsRead (T.bytes text.now) window.new.from window.new.bytes.items }
    ensures steps { steps.new + length window.old.bytes.items ≤ steps.old + length window.new.bytes.items }
    ensures reach { length window.new.bytes.items ≤ max (length window.old.bytes.items) (at + item_len (drop (window.old.from + at) (T.bytes text.now)) + 2) }
    ensures within { IfOk result (λ end. end ≤ length window.new.bytes.items) }
    ensures item { IfOk result (λ end. IsItemTo (T.bytes text.now) window.old.from at end) }
{
    let rest = text.len() as usize - window.from as usize;
    read_ahead(text, window, at, steps)?;
    'reads: loop {
        let whole = window.bytes.len() == rest;
        if let Some(end) = decided(window.bytes.as_slice(), at, whole) {
            return Ok(end);
        }
        read(text, window, steps)?;
    }
}
