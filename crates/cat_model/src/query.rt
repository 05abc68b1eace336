use crate::{
    CheckRow, KvRow, List, NodeRow, QueryRow, ServiceRow, SessionRow, Status, Text, Texts,
};

/// What a read asks of the catalog.
#[derive(Clone, Debug, PartialEq, Eq, Drop)]
pub enum Query {
    Nodes,
    Services,
    Service {
        name: Text,
        tags: Texts,
    },
    NodeServices {
        node: Text,
    },
    HealthService {
        name: Text,
        tags: Texts,
        passing: bool,
    },
    HealthChecks {
        name: Text,
    },
    HealthNode {
        node: Text,
    },
    /// The checks with this status, or all of them.
    HealthState {
        state: Option<Status>,
    },
    Key {
        key: Text,
    },
    Prefix {
        prefix: Text,
    },
    /// The keys with this prefix, each cut after the first separator behind it.
    Keys {
        prefix: Text,
        separator: Text,
    },
    SessionInfo {
        id: u128,
    },
    SessionsOf {
        node: Text,
    },
    Sessions,
    QueryInfo {
        id: u128,
    },
    Queries,
}

/// A check with the name of the service that it is of, which is empty for the node's own check.
#[derive(Clone, Debug, PartialEq, Eq, Drop)]
pub struct CheckView {
    pub row: CheckRow,
    pub service_name: Text,
}

/// A service's name with the tags of its instances.
#[derive(Clone, Debug, PartialEq, Eq, Drop)]
pub struct NameTags {
    pub name: Text,
    pub tags: Texts,
}

/// An instance of a service on its node, with the node's own checks and the instance's.
#[derive(Clone, Debug, PartialEq, Eq, Drop)]
pub struct Instance {
    pub node: NodeRow,
    pub service: ServiceRow,
    pub checks: List<CheckView>,
}

/// The catalog's answer to a query.
#[derive(Clone, Debug, PartialEq, Eq, Drop)]
pub enum Answer {
    Nodes(List<NodeRow>),
    Services(List<NameTags>),
    Instances(List<Instance>),
    NodeView(Option<NodeRow>, List<ServiceRow>),
    Checks(List<CheckView>),
    Rows(List<KvRow>),
    Names(Texts),
    Sessions(List<SessionRow>),
    Queries(List<QueryRow>),
    /// There is no row of that key, or no prepared query of that identifier.
    Absent,
}

/// What an executed prepared query gives.
#[derive(Debug, Drop)]
pub struct Ran {
    pub service: Text,
    pub dns_ttl_ms: u64,
    pub nodes: List<Instance>,
}

/// What a change of the catalog fires, and what a waiting query hangs on.
#[derive(Clone, Debug, PartialEq, Eq, Drop)]
pub enum Chan {
    Nodes,
    Services,
    Checks,
    Sessions,
    Queries,
    /// What a query of this service's name reads.
    Service(Text),
    /// Some service's last instance went.
    Vanished,
    /// The row of this node, or its services.
    Node(Text),
    /// The checks of this node.
    NodeChecks(Text),
    /// Some node went.
    NodeGone,
    Key(Text),
    /// A key with this prefix. Only a fired key reaches it.
    Prefix(Text),
    Reaped,
}
