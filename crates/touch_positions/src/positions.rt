ghost use Rattle.std.specs.Prelude.{◌≡◌};
ghost use Rattle.touch_positions.specs.Positions.{position_at, moved};

/// A table of the catalog other than that of the keys.
#[derive(Clone, Copy, Debug, PartialEq, Eq)]
pub enum Table {
    Nodes,
    Services,
    Checks,
    Sessions,
    Queries,
}

/// The last position at which each table changed, that at which a service name lost its last row, and that at which a node
/// went.
#[derive(Clone, Copy, Drop)]
pub(crate) struct Positions {
    pub(crate) nodes: u64,
    pub(crate) services: u64,
    pub(crate) checks: u64,
    pub(crate) sessions: u64,
    pub(crate) queries: u64,
    pub(crate) vanished: u64,
    pub(crate) gone: u64,
}

impl Positions {
    /// Those before the first command.
    pub(crate) const FIRST: Positions = Positions {
        nodes: 1,
        services: 1,
        checks: 1,
        sessions: 1,
        queries: 1,
        vanished: 1,
        gone: 1,
    };

    pub(crate) fn at(&self, table: Table) -> u64
        ensures { result ≡ position_at table self.now }
    {
        match table {
            Table::Nodes => self.nodes,
            Table::Services => self.services,
            Table::Checks => self.checks,
            Table::Sessions => self.sessions,
            Table::Queries => self.queries,
        }
    }

    pub(crate) fn set(&mut self, table: Table, position: u64)
        ensures { self.new ≡ moved table position self.old }
    {
        match table {
            Table::Nodes => self.nodes = position,
            Table::Services => self.services = position,
            Table::Checks => self.checks = position,
            Table::Sessions => self.sessions = position,
            Table::Queries => self.queries = position,
        }
    }
}
