ghost use Rattle.std.specs.Prelude.{◌≡◌, ◌+◌, ◌++◌, ◌≤◌, IfOk, OnOk, drop, length};
ghost use Rattle.std.specs.List.{prefix_len};
ghost use Rattle.mp_script.specs.Words.{behind_word, content_len, is_separator, is_word_byte, word_of, words_of};

use mp_base::{Bytes, Memory};
use std::alloc::Global;
use std::mem;

fn is_separator(byte: u8) -> bool
    ensures { result ≡ is_separator byte }
{
    byte == b' ' || byte == b'\t'
}

// The end of a word, which may have no byte.
fn end_word(words: &mut Vec<Bytes>, word: Vec<u8>) -> Result<(), Memory>
    ensures { OnOk result (words.new.items ≡ words.old.items ++ word_of word.items) }
{
    if word.is_empty() {
        return Ok(());
    }
    words.push(Bytes::from_vec(word))?;
    Ok(())
}

// The words of a line.
pub(crate) fn words_of(alloc: Global, line: &[u8]) -> Result<Vec<Bytes>, Memory>
    ensures { IfOk result (λ words. words.items ≡ words_of line.now) }
{
    let mut words = Vec::new(alloc);
    let mut last = Vec::new(alloc);
    'bytes: for byte in line {
        if is_separator(*byte) {
            let word = mem::replace(&mut last, Vec::new(alloc));
            end_word(&mut words, word)?;
        } else {
            last.push(*byte)?;
        }
    }
    end_word(&mut words, last)?;
    Ok(words)
}

// The place after the separators from a place on.
fn separators_end(line: &[u8], at: usize) -> usize
    requires { at ≤ length line.now }
    ensures within { result ≤ length line.now }
    ensures value { result ≡ at + prefix_len is_separator (drop at line.now) }
{
    let mut end = at;
    'separators: while end < line.len() && is_separator(line[end]) {
        end += 1;
    }
    end
}

// The place after the bytes of a word from a place on.
fn word_end(line: &[u8], at: usize) -> usize
    requires { at ≤ length line.now }
    ensures within { result ≤ length line.now }
    ensures value { result ≡ at + prefix_len is_word_byte (drop at line.now) }
{
    let mut end = at;
    'letters: while end < line.len() && !is_separator(line[end]) {
        end += 1;
    }
    end
}

// The place after the last byte that is no separator.
fn content_len(line: &[u8]) -> usize
    ensures within { result ≤ length line.now }
    ensures value { result ≡ content_len line.now }
{
    let mut end = 0;
    'bytes: for at in 0..line.len() {
        if !is_separator(line[at]) {
            end = at + 1;
        }
    }
    end
}

// What stands behind the first word, without the separators at its ends.
pub(crate) fn behind_word(line: &[u8]) -> &[u8]
    ensures short { length result.now ≤ length line.now }
    ensures value { result.now ≡ behind_word line.now }
{
    let start = separators_end(line, word_end(line, separators_end(line, 0)));
    let rest = &line[start..];
    &rest[..content_len(rest)]
}
