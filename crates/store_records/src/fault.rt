use thiserror::Error;

/// Why no record was read.
#[derive(Clone, Copy, Debug, PartialEq, Eq, Error)]
pub enum RecordFault {
    /// The input ends within a record.
    #[error("the record is cut off")]
    Cut,
    /// No record begins so. `at` is the place of the first byte with which no payload goes on, or of the byte at which the
    /// payload or its stated length ends before the other.
    #[error("no record has these bytes, at {at}")]
    Bad { at: usize },
    #[error("out of memory")]
    Memory,
}
