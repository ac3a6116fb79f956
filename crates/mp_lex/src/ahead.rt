// To look for an item's end from its start at each byte that is read would take too long where the item is long. What
// stands here reads a word, a number or a string on, and each of its bytes once.
ghost use Rattle.std.specs.Prelude.{◌≡◌, ◌+◌, ◌≤◌, IfOk, MatchOption, drop, length, max, true};
ghost use Rattle.std.specs.Char.{is_ascii_alphanumeric, is_ascii_digit};
ghost use Rattle.std.specs.List.{prefix_len};
ghost use Rattle.mp_base.specs.declared.limits.TheConstants.{TEXT_LIMIT};
ghost use Rattle.mp_lex.specs.Lengths.{begins_exponent, begins_fraction, exponent_len, number_end_len, string_len};
ghost use Rattle.mp_lex.specs.Windows.{IsByteAt, IsRead};

use crate::numbers::{is_e, is_exponent_start};
use crate::window::{Window, has};
use mp_base::{Memory, Reader, Steps, TEXT_LIMIT};

// The byte of the text at a place, which is read where it was not.
fn peek<L, T: Reader<L>>(
    text: &T,
    window: &mut Window,
    at: usize,
    steps: &mut Steps<L>,
) -> Result<Option<u8>, Memory>
    requires short { length (T.bytes text.now) ≤ TEXT_LIMIT }
    requires read { IsRead (T.bytes text.now) window.old.from window.old.bytes.items }
    requires at { at ≤ length window.old.bytes.items }
    ensures from { window.new.from ≡ window.old.from }
    ensures read { IsRead (T.bytes text.now) window.new.from window.new.bytes.items }
    ensures steps { steps.new + length window.old.bytes.items ≤ steps.old + length window.new.bytes.items }
    ensures grown { length window.old.bytes.items ≤ length window.new.bytes.items }
    ensures reach { length window.new.bytes.items ≤ max (length window.old.bytes.items) (at + 1) }
    ensures byte { IfOk result (λ found. MatchOption found (window.old.from + at ≡ length (T.bytes text.now))
        (λ byte. IsByteAt (T.bytes text.now) window.old.from at window.new.bytes.items byte)) }
{
    if !has(text, window, at, steps)? {
        return Ok(None);
    }
    let byte = window.bytes[at];
    Ok(Some(byte))
}

// Reads the digits from a place on, and at most a byte past them. It gives the place behind them.
fn read_digits<L, T: Reader<L>>(
    text: &T,
    window: &mut Window,
    at: usize,
    steps: &mut Steps<L>,
) -> Result<usize, Memory>
    requires short { length (T.bytes text.now) ≤ TEXT_LIMIT }
    requires read { IsRead (T.bytes text.now) window.old.from window.old.bytes.items }
    requires at { at ≤ length window.old.bytes.items }
    ensures from { window.new.from ≡ window.old.from }
    ensures read { IsRead (T.bytes text.now) window.new.from window.new.bytes.items }
    ensures steps { steps.new + length window.old.bytes.items ≤ steps.old + length window.new.bytes.items }
    ensures grown { length window.old.bytes.items ≤ length window.new.bytes.items }
    ensures reach { length window.new.bytes.items ≤ max (length window.old.bytes.items) (at + prefix_len is_ascii_digit (drop (window.old.from + at) (T.bytes text.now)) + 1) }
    ensures end { IfOk result (λ end. end ≡ at + prefix_len is_ascii_digit (drop (window.old.from + at) (T.bytes text.now))) }
    ensures within { IfOk result (λ end. end ≤ length window.new.bytes.items) }
{
    let mut end = at;
    'digits: loop {
        let Some(byte) = peek(text, window, end, steps)? else {
            return Ok(end);
        };
        if !byte.is_ascii_digit() {
            return Ok(end);
        }
        end += 1;
    }
}

// Reads the letters and digits from a place on, and at most a byte past them.
pub(crate) fn read_word<L, T: Reader<L>>(
    text: &T,
    window: &mut Window,
    at: usize,
    steps: &mut Steps<L>,
) -> Result<(), Memory>
    requires short { length (T.bytes text.now) ≤ TEXT_LIMIT }
    requires read { IsRead (T.bytes text.now) window.old.from window.old.bytes.items }
    requires at { at ≤ length window.old.bytes.items }
    ensures from { window.new.from ≡ window.old.from }
    ensures read { IsRead (T.bytes text.now) window.new.from window.new.bytes.items }
    ensures steps { steps.new + length window.old.bytes.items ≤ steps.old + length window.new.bytes.items }
    ensures grown { length window.old.bytes.items ≤ length window.new.bytes.items }
    ensures reach { length window.new.bytes.items ≤ max (length window.old.bytes.items)
        (at + prefix_len is_ascii_alphanumeric (drop (window.old.from + at) (T.bytes text.now)) + 1) }
{
    let mut end = at;
    'letters: loop {
        let Some(byte) = peek(text, window, end, steps)? else {
            return Ok(());
        };
        if !byte.is_ascii_alphanumeric() {
            return Ok(());
        }
        end += 1;
    }
}

// Reads the rest of a string, from past its opening quote, and at most a byte past it.
pub(crate) fn read_string<L, T: Reader<L>>(
    text: &T,
    window: &mut Window,
    at: usize,
    steps: &mut Steps<L>,
) -> Result<(), Memory>
    requires short { length (T.bytes text.now) ≤ TEXT_LIMIT }
    requires read { IsRead (T.bytes text.now) window.old.from window.old.bytes.items }
    requires at { at ≤ length window.old.bytes.items }
    ensures from { window.new.from ≡ window.old.from }
    ensures read { IsRead (T.bytes text.now) window.new.from window.new.bytes.items }
    ensures steps { steps.new + length window.old.bytes.items ≤ steps.old + length window.new.bytes.items }
    ensures grown { length window.old.bytes.items ≤ length window.new.bytes.items }
    ensures reach { length window.new.bytes.items ≤ max (length window.old.bytes.items) (at + string_len (drop (window.old.from + at) (T.bytes text.now)) + 1) }
{
    let mut end = at;
    'elements: loop {
        let Some(byte) = peek(text, window, end, steps)? else {
            return Ok(());
        };
        if byte == b'\n' || byte == b'\r' {
            return Ok(());
        }
        if byte != b'\'' {
            end += 1;
            continue;
        }
        let Some(next) = peek(text, window, end + 1, steps)? else {
            return Ok(());
        };
        if next != b'\'' {
            return Ok(());
        }
        end += 2;
    }
}

// Whether an exponent begins at a place.
fn begins_exponent<L, T: Reader<L>>(
    text: &T,
    window: &mut Window,
    at: usize,
    steps: &mut Steps<L>,
) -> Result<bool, Memory>
    requires short { length (T.bytes text.now) ≤ TEXT_LIMIT }
    requires read { IsRead (T.bytes text.now) window.old.from window.old.bytes.items }
    requires at { at ≤ length window.old.bytes.items }
    ensures from { window.new.from ≡ window.old.from }
    ensures read { IsRead (T.bytes text.now) window.new.from window.new.bytes.items }
    ensures steps { steps.new + length window.old.bytes.items ≤ steps.old + length window.new.bytes.items }
    ensures grown { length window.old.bytes.items ≤ length window.new.bytes.items }
    ensures reach { length window.new.bytes.items ≤ max (length window.old.bytes.items) (at + 2) }
    ensures value { IfOk result (λ begins. begins ≡ begins_exponent (drop (window.old.from + at) (T.bytes text.now))) }
    ensures room { IfOk result (λ begins. begins ≡ true → at + 2 ≤ length window.new.bytes.items) }
{
    let Some(first) = peek(text, window, at, steps)? else {
        return Ok(false);
    };
    if !is_e(first) {
        return Ok(false);
    }
    let Some(second) = peek(text, window, at + 1, steps)? else {
        return Ok(false);
    };
    Ok(is_exponent_start(second))
}

// Whether a fraction begins at a place.
fn begins_fraction<L, T: Reader<L>>(
    text: &T,
    window: &mut Window,
    at: usize,
    steps: &mut Steps<L>,
) -> Result<bool, Memory>
    requires short { length (T.bytes text.now) ≤ TEXT_LIMIT }
    requires read { IsRead (T.bytes text.now) window.old.from window.old.bytes.items }
    requires at { at ≤ length window.old.bytes.items }
    ensures from { window.new.from ≡ window.old.from }
    ensures read { IsRead (T.bytes text.now) window.new.from window.new.bytes.items }
    ensures steps { steps.new + length window.old.bytes.items ≤ steps.old + length window.new.bytes.items }
    ensures grown { length window.old.bytes.items ≤ length window.new.bytes.items }
    ensures reach { length window.new.bytes.items ≤ max (length window.old.bytes.items) (at + 2) }
    ensures value { IfOk result (λ begins. begins ≡ begins_fraction (drop (window.old.from + at) (T.bytes text.now))) }
    ensures room { IfOk result (λ begins. begins ≡ true → at + 2 ≤ length window.new.bytes.items) }
{
    let Some(first) = peek(text, window, at, steps)? else {
        return Ok(false);
    };
    if !(first == b'.') {
        return Ok(false);
    }
    let Some(second) = peek(text, window, at + 1, steps)? else {
        return Ok(false);
    };
    Ok(second.is_ascii_digit())
}

// Reads the exponent that begins at a place, if one does, and at most two bytes past it.
fn read_exponent<L, T: Reader<L>>(
    text: &T,
    window: &mut Window,
    at: usize,
    steps: &mut Steps<L>,
) -> Result<(), Memory>
    requires short { length (T.bytes text.now) ≤ TEXT_LIMIT }
    requires read { IsRead (T.bytes text.now) window.old.from window.old.bytes.items }
    requires at { at ≤ length window.old.bytes.items }
    ensures from { window.new.from ≡ window.old.from }
    ensures read { IsRead (T.bytes text.now) window.new.from window.new.bytes.items }
    ensures steps { steps.new + length window.old.bytes.items ≤ steps.old + length window.new.bytes.items }
    ensures grown { length window.old.bytes.items ≤ length window.new.bytes.items }
    ensures reach { length window.new.bytes.items ≤ max (length window.old.bytes.items) (at + exponent_len (drop (window.old.from + at) (T.bytes text.now)) + 2) }
{
    if begins_exponent(text, window, at, steps)? {
        read_digits(text, window, at + 2, steps)?;
    }
    Ok(())
}

// Reads the end of a number, from past the digits that it begins with, and at most two bytes past it.
fn read_number_end<L, T: Reader<L>>(
    text: &T,
    window: &mut Window,
    at: usize,
    steps: &mut Steps<L>,
) -> Result<(), Memory>
    requires short { length (T.bytes text.now) ≤ TEXT_LIMIT }
    requires read { IsRead (T.bytes text.now) window.old.from window.old.bytes.items }
    requires at { at ≤ length window.old.bytes.items }
    ensures from { window.new.from ≡ window.old.from }
    ensures read { IsRead (T.bytes text.now) window.new.from window.new.bytes.items }
    ensures steps { steps.new + length window.old.bytes.items ≤ steps.old + length window.new.bytes.items }
    ensures grown { length window.old.bytes.items ≤ length window.new.bytes.items }
    ensures reach { length window.new.bytes.items ≤ max (length window.old.bytes.items) (at + number_end_len (drop (window.old.from + at) (T.bytes text.now)) + 2) }
{
    if begins_fraction(text, window, at, steps)? {
        let end = read_digits(text, window, at + 2, steps)?;
        read_exponent(text, window, end, steps)?;
        return Ok(());
    }
    if begins_exponent(text, window, at, steps)? {
        read_digits(text, window, at + 2, steps)?;
        return Ok(());
    }
    read_word(text, window, at, steps)?;
    Ok(())
}

// Reads the rest of a number, from past its first digit, and at most two bytes past it.
pub(crate) fn read_number<L, T: Reader<L>>(
    text: &T,
    window: &mut Window,
    at: usize,
    steps: &mut Steps<L>,
) -> Result<(), Memory>
    requires short { length (T.bytes text.now) ≤ TEXT_LIMIT }
    requires read { IsRead (T.bytes text.now) window.old.from window.old.bytes.items }
    requires at { at ≤ length window.old.bytes.items }
    ensures from { window.new.from ≡ window.old.from }
    ensures read { IsRead (T.bytes text.now) window.new.from window.new.bytes.items }
    ensures steps { steps.new + length window.old.bytes.items ≤ steps.old + length window.new.bytes.items }
    ensures grown { length window.old.bytes.items ≤ length window.new.bytes.items }
    ensures reach { length window.new.bytes.items ≤ max (length window.old.bytes.items)
        (at + (prefix_len is_ascii_digit (drop (window.old.from + at) (T.bytes text.now))
        + number_end_len (drop (prefix_len is_ascii_digit (drop (window.old.from + at) (T.bytes text.now))) (drop (window.old.from + at) (T.bytes text.now)))) + 2) }
{
    let end = read_digits(text, window, at, steps)?;
    read_number_end(text, window, end, steps)?;
    Ok(())
}
