use crate::{Bytes, Text, Texts};

/// How well a check is.
#[derive(Clone, Copy, Debug, PartialEq, Eq)]
pub enum Status {
    Passing,
    Warning,
    Critical,
}

/// What becomes of a session's keys at its end: they are released, or deleted.
#[derive(Clone, Copy, Debug, PartialEq, Eq)]
pub enum Behavior {
    Release,
    Delete,
}

/// A node by its name. As in every row, `create` and `modify` are the positions of the log at which the row was
/// made and last written.
#[derive(Clone, Debug, PartialEq, Eq, Drop)]
pub struct NodeRow {
    pub node: Text,
    pub address: Text,
    pub create: u64,
    pub modify: u64,
}

/// An instance of a service, by its node and its ID there.
#[derive(Clone, Debug, PartialEq, Eq, Drop)]
pub struct ServiceRow {
    pub node: Text,
    pub id: Text,
    pub name: Text,
    pub tags: Texts,
    pub address: Text,
    pub port: u16,
    pub tag_override: bool,
    pub create: u64,
    pub modify: u64,
}

/// A check by its node and its ID there. `service` is the ID of the instance that it is of, or empty for the
/// node's own check.
#[derive(Clone, Debug, PartialEq, Eq, Drop)]
pub struct CheckRow {
    pub node: Text,
    pub id: Text,
    pub name: Text,
    pub status: Status,
    pub notes: Text,
    pub output: Text,
    pub service: Text,
    pub create: u64,
    pub modify: u64,
}

/// A key with its value. `session` holds its lock, and `lock_index` counts the acquisitions of it.
#[derive(Clone, Debug, PartialEq, Eq, Drop)]
pub struct KvRow {
    pub key: Text,
    pub value: Bytes,
    pub flags: u64,
    pub session: Option<u128>,
    pub lock_index: u64,
    pub create: u64,
    pub modify: u64,
}

/// A session by its identifier. `delay_ms` is the lock delay of its keys, and a `ttl_ms` of 0 is no TTL.
#[derive(Clone, Debug, PartialEq, Eq, Drop)]
pub struct SessionRow {
    pub id: u128,
    pub name: Text,
    pub node: Text,
    pub checks: Texts,
    pub behavior: Behavior,
    pub delay_ms: u64,
    pub ttl_ms: u64,
    pub create: u64,
    pub modify: u64,
}

/// A prepared query by its identifier. A tag `!t` in `tags` asks that `t` be absent.
#[derive(Clone, Debug, PartialEq, Eq, Drop)]
pub struct QueryRow {
    pub id: u128,
    pub name: Text,
    pub session: Option<u128>,
    pub service: Text,
    pub only_passing: bool,
    pub tags: Texts,
    pub dns_ttl_ms: u64,
    pub create: u64,
    pub modify: u64,
}
