use crate::{Behavior, Bytes, List, Shared, Status, Text, Texts};

/// A service as a Register gives it.
#[derive(Clone, Debug, PartialEq, Eq, Drop)]
pub struct NewService {
    pub id: Text,
    pub name: Text,
    pub tags: Texts,
    pub address: Text,
    pub port: u16,
    pub tag_override: bool,
}

/// A check as a Register gives it.
#[derive(Clone, Debug, PartialEq, Eq, Drop)]
pub struct NewCheck {
    pub id: Text,
    pub name: Text,
    pub status: Status,
    pub notes: Text,
    pub output: Text,
    pub service: Text,
}

/// What an operation of a transaction does.
#[derive(Clone, Copy, Debug, PartialEq, Eq)]
pub enum Verb {
    Set,
    Cas,
    Lock,
    Unlock,
    Get,
    GetOrEmpty,
    GetTree,
    CheckIndex,
    CheckSession,
    CheckNotExists,
    Delete,
    DeleteTree,
    DeleteCas,
}

/// An operation of a transaction. `key` is the prefix where the verb is one of the two on trees.
#[derive(Clone, Debug, PartialEq, Eq, Drop)]
pub struct TxnOp {
    pub verb: Verb,
    pub key: Text,
    pub value: Bytes,
    pub flags: u64,
    pub index: u64,
    pub session: Option<u128>,
}

/// What an entry of the log does to the catalog.
#[derive(Clone, Debug, PartialEq, Eq, Drop)]
pub enum Command {
    /// Opens a leader's term.
    Noop,
    Register {
        node: Text,
        address: Text,
        service: Option<NewService>,
        checks: List<NewCheck>,
    },
    /// Removes a service, or where that is empty a check, or where both are empty the node.
    Deregister {
        node: Text,
        service: Text,
        check: Text,
    },
    KvSet {
        key: Text,
        flags: u64,
        value: Bytes,
    },
    /// Sets the key where its row was last written at `index`, or is absent for an index of 0.
    KvCas {
        key: Text,
        flags: u64,
        value: Bytes,
        index: u64,
    },
    KvLock {
        key: Text,
        flags: u64,
        value: Bytes,
        session: u128,
    },
    KvUnlock {
        key: Text,
        flags: u64,
        value: Bytes,
        session: u128,
    },
    KvDelete {
        key: Text,
    },
    KvDeleteCas {
        key: Text,
        index: u64,
    },
    KvDeleteTree {
        prefix: Text,
    },
    Txn {
        ops: List<TxnOp>,
    },
    SessionCreate {
        id: u128,
        name: Text,
        node: Text,
        checks: Texts,
        behavior: Behavior,
        delay_ms: u64,
        ttl_ms: u64,
    },
    SessionDestroy {
        id: u128,
    },
    /// Makes the prepared query, or writes it anew where `create` is false.
    QuerySet {
        id: u128,
        create: bool,
        name: Text,
        session: Option<u128>,
        service: Text,
        only_passing: bool,
        tags: Texts,
        dns_ttl_ms: u64,
    },
    QueryDelete {
        id: u128,
    },
    /// Forgets at which positions keys were removed.
    Reap,
    /// Goes on with version 2 of the catalog machine, in which a write that changes nothing of a key's row leaves it
    /// where it was last modified.
    Upgrade,
}

/// One place of a log: the term in which a leader entered the command, and the number of the request that asked
/// for it. Number 0 is no request's.
#[derive(Clone, Debug, Drop)]
pub struct Entry {
    pub term: u64,
    pub number: u64,
    pub command: Shared<Command>,
}
