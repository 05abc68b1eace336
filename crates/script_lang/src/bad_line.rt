use cat_model::Memory;
use std::fmt;

/// Why a line is refused, the first reason that holds, or lack of memory.
#[derive(Clone, Copy, Debug, PartialEq, Eq)]
pub enum BadLine {
    /// The first line that says something doesn't open a cluster.
    ExpectedCluster,
    /// It begins with no word of the format, opens a second cluster, or has too few or too many words.
    UnknownLine,
    /// A word that is to be a number is none, or is out of its bounds.
    BadNumber,
    /// A request's method, target or body is none.
    BadRequestLine,
    NoSuchServer,
    NoSuchAgent,
    NoSuchMessage,
    /// A clock would pass its largest value.
    ClockTooFar,
    Memory,
}

impl fmt::Display for BadLine {
    ghost use Rattle.std.specs.Prelude.{Some};
    ghost use Rattle.script_lang.specs.Text.{reason_text};

    ghost output = { λ bad. Some (reason_text bad) };

    fn fmt<W: fmt::Write>(&self, f: &mut fmt::Formatter<W>) -> fmt::Result {
        match self {
            BadLine::ExpectedCluster => write!(f, "expected cluster"),
            BadLine::UnknownLine => write!(f, "unknown line"),
            BadLine::BadNumber => write!(f, "bad number"),
            BadLine::BadRequestLine => write!(f, "bad request line"),
            BadLine::NoSuchServer => write!(f, "no such server"),
            BadLine::NoSuchAgent => write!(f, "no such agent"),
            BadLine::NoSuchMessage => write!(f, "no such message"),
            BadLine::ClockTooFar => write!(f, "clock too far"),
            BadLine::Memory => write!(f, "out of memory"),
        }
    }
}

impl From<Memory> for BadLine {
    ghost use Rattle.std.specs.Prelude.{◌≡◌};
    ghost use Rattle.script_lang.specs.declared.bad_line.BadLine.TheVariants as bad;

    ghost from_gives = { λ _ b. b ≡ bad.Memory };

    fn from(_: Memory) -> BadLine {
        BadLine::Memory
    }
}
