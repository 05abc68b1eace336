/// Why an event doesn't fit a cluster.
#[derive(Clone, Copy, Debug, PartialEq, Eq)]
pub enum Misfit {
    /// There is no server with that number.
    NoServer,
    /// There is no agent with that number.
    NoAgent,
    /// No message with that number is under way.
    NoMessage,
    /// A clock would pass 2^53 milliseconds.
    Clock,
}
