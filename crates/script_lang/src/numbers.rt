ghost use Rattle.std.specs.Prelude.{◌≡◌, ◌≤◌, ◌<◌, ◌^◌, true, length, IfOk, IfSome, IfNone};
ghost use Rattle.std.specs.Option.{option_copied};
ghost use Rattle.std.specs.Char.{is_ascii_digit};
ghost use Rattle.std.specs.List.{list_all};
ghost use Rattle.std.specs.Str.Parse.{digits_value};
ghost use Rattle.script_lang.specs.Numbers as spec;
ghost use Rattle.script_lang.specs.Words.{words_in};

use crate::bad_line::BadLine;
use crate::words::{last_word, next_word};

/// The bounds of a number, both of them counted.
#[derive(Clone, Copy, Debug)]
pub struct Bounds {
    pub least: u64,
    pub most: u64,
}

fn is_all_digits(word: &[u8]) -> bool
    ensures { result ≡ list_all is_ascii_digit word.now }
{
    word.iter().all(|byte| byte.is_ascii_digit())
}

fn is_number(word: &[u8]) -> bool
    ensures { result ≡ spec.is_number word.now }
{
    !word.is_empty() && (word.len() == 1 || word[0] != b'0') && is_all_digits(word)
}

// The value of decimal digits, where it is below 2 ^ 64.
fn value_of(word: &[u8]) -> Option<u64>
    requires some { 0 < length word.now }
    requires digits { list_all is_ascii_digit word.now ≡ true }
    ensures value { IfSome result (λ n. n ≡ digits_value 10 word.now) }
    ensures none { IfNone result (2 ^ 64 ≤ digits_value 10 word.now) }
{
    match str::from_utf8(word) {
        Ok(text) => text.parse::<u64>().ok(),
        Err(_) => None,
    }
}

fn is_within(bounds: Bounds, value: u64) -> bool
    ensures { result ≡ spec.is_within bounds value }
{
    bounds.least <= value && value <= bounds.most
}

/// The word as a number within the bounds.
pub fn number_in(bounds: Bounds, word: &[u8]) -> Result<u64, BadLine>
    ensures bound { IfOk result (λ n. n ≤ bounds.most) }
    ensures value { result ≡ spec.number_in bounds word.now }
{
    if !is_number(word) {
        return Err(BadLine::BadNumber);
    }
    match value_of(word) {
        Some(value) if is_within(bounds, value) => Ok(value),
        _ => Err(BadLine::BadNumber),
    }
}

/// The one number of these words.
#[tactic(auto, using(crate::proofs::Shapes::not_one))]
pub fn one_number(bounds: Bounds, words: Option<&[u8]>) -> Result<u64, BadLine>
    ensures bound { IfOk result (λ n. n ≤ bounds.most) }
    ensures value { result ≡ spec.one_number bounds (words_in (option_copied words.entry)) }
{
    let word = last_word(words)?;
    if word.is_empty() {
        return Err(BadLine::UnknownLine);
    }
    number_in(bounds, word)
}

/// The two numbers of these words.
#[tactic(auto, using(crate::proofs::Shapes::not_two))]
pub fn two_numbers(
    first: Bounds,
    second: Bounds,
    words: Option<&[u8]>,
) -> Result<(u64, u64), BadLine>
    ensures first_bound { IfOk result (λ n. n.0 ≤ first.most) }
    ensures second_bound { IfOk result (λ n. n.1 ≤ second.most) }
    ensures value { result ≡ spec.two_numbers first second (words_in (option_copied words.entry)) }
{
    let (a, words) = next_word(words)?;
    let b = last_word(words)?;
    if a.is_empty() || b.is_empty() {
        return Err(BadLine::UnknownLine);
    }
    let a = number_in(first, a)?;
    let b = number_in(second, b)?;
    Ok((a, b))
}
