ghost use Rattle.std.specs.Prelude.{◌≡◌};
ghost use Rattle.cluster_requests.specs.Plain.{refusal_of};

use cat_model::Refusal;

/// A cause to refuse a request that has no text, so that it takes no memory.
#[derive(Clone, Copy, Debug)]
pub enum Plain {
    /// The server's durable store failed.
    Halted { server: u32 },
    /// The log would then have so many entries and command bytes.
    LogFull { entries: u64, bytes: u64 },
    /// The leading server has applied no entry of its term yet.
    NotReady { term: u64, applied_term: u64 },
}

impl Plain {
    pub fn refusal(self) -> Refusal
        ensures { result ≡ refusal_of self }
    {
        match self {
            Plain::Halted { server } => Refusal::Halted { server },
            Plain::LogFull { entries, bytes } => Refusal::LogFull { entries, bytes },
            Plain::NotReady { term, applied_term } => Refusal::NotReady { term, applied_term },
        }
    }
}
