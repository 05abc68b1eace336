use cat_model::Kind;
use cluster_requests::{Content, Stand};

/// What is due at a server.
#[derive(Drop)]
pub enum Work {
    /// A held request is answered, and its reply shows this.
    Answer {
        number: u64,
        kind: Kind,
        content: Content,
    },
    /// A held request waits for something else.
    Hold {
        number: u64,
        stand: Stand,
    },
    /// A held request is closed, since its server restarted in the event with this number.
    Close {
        number: u64,
        event: u64,
    },
    /// The next position is applied.
    Apply,
}
