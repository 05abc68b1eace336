/// Lack of memory, and whether something was done before.
#[derive(Clone, Copy, Debug, PartialEq, Eq)]
pub enum Cut {
    /// Nothing was done.
    Before,
    /// A part was done.
    Within,
}
