use crate::{Chan, CheckRow, List, NodeRow, ServiceRow, Text};

/// A key that an ended session held, with the lock delay that begins there.
#[derive(Debug, Drop)]
pub struct Freed {
    pub key: Text,
    pub delay_ms: u64,
}

/// What one command of the log fired, and the keys that it freed.
#[derive(Debug, Drop)]
pub struct Fired {
    pub chans: List<Chan>,
    pub freed: List<Freed>,
}

/// An agent's own rows. Their `create` and `modify` are 0.
#[derive(Debug, Drop)]
pub struct Local {
    pub node: Option<NodeRow>,
    pub services: List<ServiceRow>,
    pub checks: List<CheckRow>,
}

/// The catalog's rows of an agent's node.
#[derive(Debug, Drop)]
pub struct Remote {
    pub node: Option<NodeRow>,
    pub services: List<ServiceRow>,
    pub checks: List<CheckRow>,
}
