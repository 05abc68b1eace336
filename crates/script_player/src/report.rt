use cat_model::{Entry, List};

/// What a whole run did.
#[derive(Debug, Drop)]
pub struct Report {
    /// How many events were made, a delivery and a loss for each message of a settling.
    pub events: u64,
    /// How many requests were asked.
    pub requests: u64,
    /// The agreed log.
    pub agreed: List<Entry>,
    /// How many entries of the agreed log each server has applied, the first one first.
    pub applied: List<u64>,
    /// The numbers of the requests without a reply, in ascending order.
    pub unanswered: List<u64>,
}
