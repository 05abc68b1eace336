use std::collections::LinkedList;

/// What a pass knows of the lock and of the history under it. No value of it is made: it is what the rule of the lock
/// says of each pass.
pub struct Knowledge<I> {
    /// Its shares of the 2^63 that there are. A pass that waits has one, so fewer than 2^64 tickets are ever out.
    pub shares: u64,
    /// 1 where it has a ticket, else 0.
    pub waits: u64,
    /// The ticket, counted without end.
    pub ticket: u64,
    /// Whether it has the turn.
    pub turn: bool,
    /// The beginning of the list that it has seen.
    pub seen: LinkedList<I>,
    /// The numbers that were opened in its turns, and for the first pass those that were open when the lock was made.
    pub mine: LinkedList<u64>,
    /// What the passes that were put into it had seen, each of them the beginning of the list that it had seen.
    pub told: LinkedList<LinkedList<I>>,
}
