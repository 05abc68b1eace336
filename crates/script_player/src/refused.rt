use script_lang::BadLine;

/// A line that is refused, and why. Lines are numbered from 1.
#[derive(Clone, Copy, Debug, PartialEq, Eq)]
pub struct Refused {
    pub line: u64,
    pub reason: BadLine,
}
