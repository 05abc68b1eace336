//! The small values of a case. `None` stands for a word that is missing or says none, and for lack of memory.

use std::alloc::Global;
use std::str::{FromStr, SplitWhitespace};

/// The words of a line that are left.
pub type Words<'a> = SplitWhitespace<'a>;

/// The next word as a number.
pub fn number(words: &mut Words) -> Option<u64> {
    words.next()?.parse().ok()
}

/// The next word as the number of a server, or of servers.
pub fn server(words: &mut Words) -> Option<u32> {
    words.next()?.parse().ok()
}

/// The next word as `yes` or `no`.
pub fn answer(words: &mut Words) -> Option<bool> {
    match words.next()? {
        "yes" => Some(true),
        "no" => Some(false),
        _ => None,
    }
}

/// `yes` or `no`.
pub fn answered(is: bool) -> &'static str {
    if is { "yes" } else { "no" }
}

/// The next word as numbers that commas part, of which `-` is none at all.
pub fn numbers<T>(alloc: Global, words: &mut Words) -> Option<Vec<T>>
where
    T: FromStr + Drop,
    T::Err: Drop,
{
    let word = words.next()?;
    if word == "-" {
        return Some(Vec::new(alloc));
    }
    parted(alloc, word)
}

fn parted<T>(alloc: Global, word: &str) -> Option<Vec<T>>
where
    T: FromStr + Drop,
    T::Err: Drop,
{
    let mut numbers = Vec::new(alloc);
    for part in word.split(',') {
        push_number(&mut numbers, part)?;
    }
    Some(numbers)
}

fn push_number<T>(numbers: &mut Vec<T>, part: &str) -> Option<()>
where
    T: FromStr + Drop,
    T::Err: Drop,
{
    let number = part.parse().ok()?;
    numbers.push(number).ok()
}
