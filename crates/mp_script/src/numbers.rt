ghost use Rattle.std.specs.Prelude.{◌≡◌, ◌≤◌, IfOk, IsTrue, length, map};
ghost use Rattle.std.specs.List.{list_all};
ghost use Rattle.std.specs.Char.{is_ascii_digit};
ghost use Rattle.mp_lex.specs.Meaning.{digits_value};
ghost use Rattle.mp_script.specs.Numbers.{number_of, one, perhaps, three, two};

use mp_base::{Bytes, Memory};
use std::alloc::Global;

fn all_digits(word: &[u8]) -> bool
    ensures { result ≡ list_all is_ascii_digit word.now }
{
    word.iter().all(|byte| byte.is_ascii_digit())
}

// The value of digits.
fn value(digits: &[u8]) -> u32
    requires short { length digits.now ≤ 9 }
    requires digits { IsTrue (list_all is_ascii_digit digits.now) }
    ensures { result ≡ digits_value digits.now }
{
    let mut value: u32 = 0;
    'digits: for digit in digits {
        value = value * 10 + u32::from(*digit - b'0');
    }
    value
}

// The number that a word is, if it is one.
#[tactic(auto, unfolding(crate::specs::Numbers::number_of))]
fn number_of(word: &[u8]) -> Option<u32>
    ensures { result ≡ number_of word.now }
{
    if all_digits(word) && 1 <= word.len() && word.len() <= 9 {
        Some(value(word))
    } else {
        None
    }
}

// The numbers that words are; None for a word that is none.
pub(crate) fn numbers_of(alloc: Global, words: &[Bytes]) -> Result<Vec<Option<u32>>, Memory>
    ensures { IfOk result (λ numbers. numbers.items ≡ map number_of words.now) }
{
    let mut numbers = Vec::new(alloc);
    'words: for word in words {
        numbers.push(number_of(word.get()))?;
    }
    Ok(numbers)
}

// Just one number.
pub(crate) fn one(numbers: &[Option<u32>]) -> Option<u32>
    ensures { result ≡ one numbers.now }
{
    if numbers.len() == 1 { numbers[0] } else { None }
}

// Just two numbers.
pub(crate) fn two(numbers: &[Option<u32>]) -> Option<(u32, u32)>
    ensures { result ≡ two numbers.now }
{
    if numbers.len() != 2 {
        return None;
    }
    match (numbers[0], numbers[1]) {
        (Some(first), Some(second)) => Some((first, second)),
        _ => None,
    }
}

// Just three numbers.
pub(crate) fn three(numbers: &[Option<u32>]) -> Option<(u32, u32, u32)>
    ensures { result ≡ three numbers.now }
{
    if numbers.len() != 3 {
        return None;
    }
    match (numbers[0], numbers[1], numbers[2]) {
        (Some(first), Some(second), Some(third)) => Some((first, second, third)),
        _ => None,
    }
}

// One number, which may be left out.
pub(crate) fn perhaps(numbers: &[Option<u32>]) -> Option<Option<u32>>
    ensures { result ≡ perhaps numbers.now }
{
    if numbers.is_empty() {
        return Some(None);
    }
    if numbers.len() != 1 {
        return None;
    }
    match numbers[0] {
        Some(number) => Some(Some(number)),
        None => None,
    }
}
