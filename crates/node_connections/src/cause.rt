/// Why a connection ended.
#[derive(Clone, Copy, Debug, PartialEq, Eq)]
pub enum PeerCause {
    /// What the other side sent ended.
    Closed,
    /// What it sent is no list of frames. Of its bytes the first `at` could still have become one.
    Bad { at: u64 },
    ReadFault,
    WriteFault,
    /// There was no memory, or no number for one more frame.
    Memory,
}
