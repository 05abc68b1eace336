use crate::scripts::Played;
use std::fmt;
use std::fmt::{Display, Formatter, Write};

/// How a run differs first from what is wanted.
#[derive(Clone, Copy)]
pub enum Difference<'a> {
    Status {
        is: u8,
        wanted: u8,
    },
    Line {
        number: u64,
        is: &'a str,
        wanted: &'a str,
    },
    // One text goes on, or has other line ends.
    End,
    NoText,
}

impl Display for Difference<'_> {
    fn fmt<W: Write>(&self, f: &mut Formatter<W>) -> fmt::Result {
        match self {
            Difference::Status { is, wanted } => write!(f, "status {is} for {wanted}"),
            Difference::Line { number, is, wanted } => {
                write!(f, "line {number} is `{is}` for `{wanted}`")
            }
            Difference::End => write!(f, "the texts end differently"),
            Difference::NoText => write!(f, "what is written is no text"),
        }
    }
}

/// How what was played differs first from the text and the status that are wanted, if it does.
pub fn first_difference<'a>(
    played: &'a Played,
    status: u8,
    text: &'a String,
) -> Option<Difference<'a>> {
    if played.bytes() != text.as_bytes() {
        return Some(match str::from_utf8(played.bytes()) {
            Ok(written) => differing_line(written, text.as_str()),
            Err(_) => Difference::NoText,
        });
    }
    if played.status != status {
        return Some(Difference::Status {
            is: played.status,
            wanted: status,
        });
    }
    None
}

// Where two texts that are not the same differ first.
fn differing_line<'a>(is: &'a str, wanted: &'a str) -> Difference<'a> {
    let mut number = 0u64;
    for (is, wanted) in is.lines().zip(wanted.lines()) {
        number = number.saturating_add(1);
        if is != wanted {
            return Difference::Line { number, is, wanted };
        }
    }
    Difference::End
}
