//! Durations as texts, such as 1m30s.

ghost use Rattle.std.specs.Prelude.{◌≡◌, ◌<◌, ◌≤◌, ◌^◌, true, IfSome, option_and_then};
ghost use Rattle.std.specs.Char.{is_ascii_digit};
ghost use Rattle.json_bodies.specs.Durations as spec;
ghost use Rattle.json_bodies.specs.Tails.{IsSmall, capped, tail_begun, tail_with_byte, tail_with_digit, tail_with_unit, tail_total};
ghost use Rattle.json_bodies.specs.Tails as tails;

/// The most milliseconds of a duration, 2^53.
const MOST: u64 = 9_007_199_254_740_992;

/// The end of a duration as far as it is read: its first part, of which `count` digits are read, and the sum of the
/// parts behind that one.
#[derive(Clone, Copy)]
struct Tail {
    count: u32,
    number: u64,
    unit: u64,
    sum: u64,
}

/// A sum, or a number above every duration.
fn cap(sum: u64) -> u64
    ensures { result ≡ capped sum }
{
    if sum <= MOST { sum } else { MOST + 1 }
}

/// What the digit at that place counts, from the end.
fn power(place: u32) -> u64
    requires { place < 10 }
    ensures value { result ≡ 10 ^ place }
    ensures few { result ≤ 1000000000 }
{
    match place {
        0 => 1,
        1 => 10,
        2 => 100,
        3 => 1_000,
        4 => 10_000,
        5 => 100_000,
        6 => 1_000_000,
        7 => 10_000_000,
        8 => 100_000_000,
        _ => 1_000_000_000,
    }
}

/// The milliseconds of a unit.
fn unit_of(letter: u8) -> Option<u64>
    ensures { result ≡ spec.unit_of letter }
{
    match letter {
        b'h' => Some(3_600_000),
        b'm' => Some(60_000),
        b's' => Some(1_000),
        _ => None,
    }
}

/// The sum of all parts.
fn whole_sum(tail: Tail) -> u64
    requires { IsSmall tail }
    ensures { result ≡ tails.whole_sum tail }
{
    cap(tail.number * tail.unit + tail.sum)
}

fn begin(sum: u64, unit: u64) -> Option<Tail>
    ensures { result ≡ tail_begun sum unit }
{
    Some(Tail {
        count: 0,
        number: 0,
        unit,
        sum,
    })
}

fn with_digit(digit: u8, tail: Option<Tail>) -> Option<Tail>
    requires digit { is_ascii_digit digit ≡ true }
    requires small { IfSome tail IsSmall }
    ensures value { result ≡ tail_with_digit digit tail }
    ensures small { IfSome result IsSmall }
{
    let tail = tail?;
    if tail.count < 10 {
        let number = u64::from(digit - b'0') * power(tail.count) + tail.number;
        Some(Tail {
            count: tail.count + 1,
            number,
            unit: tail.unit,
            sum: tail.sum,
        })
    } else {
        None
    }
}

fn with_unit(letter: u8, tail: Option<Tail>) -> Option<Tail>
    requires { IfSome tail IsSmall }
    ensures value { result ≡ tail_with_unit letter tail }
    ensures small { IfSome result IsSmall }
{
    match tail {
        None => begin(0, unit_of(letter)?),
        Some(tail) => {
            if tail.count > 0 {
                begin(whole_sum(tail), unit_of(letter)?)
            } else if letter == b'm' && tail.unit == 1_000 {
                begin(tail.sum, 1)
            } else {
                None
            }
        }
    }
}

fn with_byte(byte: u8, tail: Option<Tail>) -> Option<Tail>
    requires { IfSome tail IsSmall }
    ensures value { result ≡ tail_with_byte byte tail }
    ensures small { IfSome result IsSmall }
{
    if byte.is_ascii_digit() {
        with_digit(byte, tail)
    } else {
        with_unit(byte, tail)
    }
}

fn total(tail: Option<Tail>) -> Option<u64>
    requires { IfSome tail IsSmall }
    ensures { result ≡ tail_total tail }
{
    let tail = tail?;
    let sum = whole_sum(tail);
    if tail.count > 0 && sum <= MOST {
        Some(sum)
    } else {
        None
    }
}

/// What a text of parts comes to.
fn parts_sum(text: &[u8]) -> Option<u64>
    ensures { result ≡ option_and_then spec.total (spec.parts_of text.now) }
{
    let mut tail = None;
    let mut left = text.len();
    'bytes: while left > 0 {
        left -= 1;
        tail = Some(with_byte(text[left], tail)?);
    }
    total(tail)
}

/// The milliseconds of a duration: one or more of a number of 1 to 10 digits and a unit `h`, `m`, `s` or `ms`,
/// summed, or `0`; 2^53 at most.
#[tactic(auto, unfolding(crate::specs::Durations::duration_of))]
pub fn duration(text: &str) -> Option<u64>
    ensures value { result ≡ spec.duration_of text.now }
    ensures few { IfSome result (λ ms. ms ≤ 2 ^ 53) }
{
    if text == "0" {
        Some(0)
    } else {
        parts_sum(text.as_bytes())
    }
}
