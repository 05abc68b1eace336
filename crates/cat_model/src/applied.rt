use crate::{KvRow, List, Verb};

/// Why the catalog refuses a command.
#[derive(Clone, Copy, Debug, PartialEq, Eq)]
pub enum Refuse {
    MissingNode,
    MissingService,
    MissingCheck,
    CriticalCheck,
    UnknownSession,
    NameTaken,
    IdTaken,
    UnknownQuery,
}

/// A result of a transaction's operation: the row as it then stood, shown with or without its value.
#[derive(Debug, Drop)]
pub struct TxnResult {
    pub row: KvRow,
    pub with_value: bool,
}

/// The catalog's answer to a command.
#[derive(Debug, Drop)]
pub enum Applied {
    Done,
    Yes,
    No,
    Results(List<TxnResult>),
    /// The operation with this place, counted from 0, failed first, and nothing changed.
    RolledBack { op: u32, verb: Verb },
    Refused(Refuse),
}
