ghost use Rattle.std.specs.Prelude.{◌≡◌, ◌≤◌, IfOk, OnErr, OnOk};
ghost use Rattle.touch_positions.specs.States.{first_state, table_position, with_table, name_position, host_position, host_checks_position, TouchesName, VanishesName, TouchesHost, TouchesHostChecks, HostGoes};

use crate::names::Names;
use crate::positions::{Positions, Table};
use cat_model::Memory;
use std::alloc::Global;
use std::marker::Model;

/// The index of each table, of each service name and of each node. Contracts see it as it is now and as it stood at the last `keep`,
/// or at `new` where there was none. Positions are those of the log, and do not fall.
#[derive(Drop)]
pub struct TableIndex {
    positions: Positions,
    kept: Positions,
    names: Names,
    hosts: Names,
    host_checks: Names,
}

impl Model for TableIndex {
    ghost use Rattle.touch_positions.specs.States.{IndexVersions};

    ghost Value = { IndexVersions };

    ghost view = { λ t. record { now = record { nodes = t.positions.nodes; services = t.positions.services; checks = t.positions.checks; sessions = t.positions.sessions; queries = t.positions.queries; vanished = t.positions.vanished; names = t.names.now; hosts = t.hosts.now; host_checks = t.host_checks.now; gone = t.positions.gone }; before = record { nodes = t.kept.nodes; services = t.kept.services; checks = t.kept.checks; sessions = t.kept.sessions; queries = t.kept.queries; vanished = t.kept.vanished; names = t.names.before; hosts = t.hosts.before; host_checks = t.host_checks.before; gone = t.kept.gone } } };
}

impl TableIndex {
    /// The index before the first command: 1 for all.
    pub fn new(alloc: Global) -> Result<TableIndex, Memory>
        ensures { IfOk result (λ t. t ≡ record { now = first_state; before = first_state }) }
    {
        Ok(TableIndex {
            positions: Positions::FIRST,
            kept: Positions::FIRST,
            names: Names::new(alloc),
            hosts: Names::new(alloc),
            host_checks: Names::new(alloc),
        })
    }

    /// Marks that the table changed at the position.
    pub fn touch(&mut self, table: Table, position: u64)
        requires { table_position table self.old.now ≤ position }
        ensures now { self.new.now ≡ with_table table position self.old.now }
        ensures before { self.new.before ≡ self.old.before }
    {
        self.positions.set(table, position);
    }

    /// Marks that what belongs to the service name changed at the position, and that it has rows.
    pub fn touch_service(&mut self, alloc: Global, name: &str, position: u64) -> Result<(), Memory>
        requires { name_position name.now self.old.now ≤ position }
        ensures ok { OnOk result (TouchesName name.now position self.old.now self.new.now) }
        ensures before { self.new.before ≡ self.old.before }
        ensures err { OnErr result (self.new ≡ self.old) }
    {
        self.names.touch(alloc, name, position)?;
        Ok(())
    }

    /// Marks that the service name lost its last row at the position.
    pub fn vanish(&mut self, name: &str, position: u64) -> Result<(), Memory>
        requires { self.old.now.vanished ≤ position }
        ensures ok { OnOk result (VanishesName name.now position self.old.now self.new.now) }
        ensures before { self.new.before ≡ self.old.before }
        ensures err { OnErr result (self.new ≡ self.old) }
    {
        self.names.vanish(name);
        self.positions.vanished = position;
        Ok(())
    }

    /// Marks that the node's row or its services changed at the position, and that the node is there.
    pub fn touch_node(&mut self, alloc: Global, node: &str, position: u64) -> Result<(), Memory>
        ensures ok { OnOk result (TouchesHost node.now position self.old.now self.new.now) }
        ensures before { self.new.before ≡ self.old.before }
        ensures err { OnErr result (self.new ≡ self.old) }
    {
        self.hosts.touch(alloc, node, position)?;
        Ok(())
    }

    /// Marks that the node's checks changed at the position, and that the node is there.
    pub fn touch_node_checks(
        &mut self,
        alloc: Global,
        node: &str,
        position: u64,
    ) -> Result<(), Memory>
        ensures ok { OnOk result (TouchesHostChecks node.now position self.old.now self.new.now) }
        ensures before { self.new.before ≡ self.old.before }
        ensures err { OnErr result (self.new ≡ self.old) }
    {
        self.host_checks.touch(alloc, node, position)?;
        Ok(())
    }

    /// Marks that the node went at the position, with its services and checks.
    pub fn node_gone(&mut self, node: &str, position: u64)
        ensures now { HostGoes node.now position self.old.now self.new.now }
        ensures before { self.new.before ≡ self.old.before }
    {
        self.hosts.vanish(node);
        self.host_checks.vanish(node);
        self.positions.gone = position;
    }

    /// The last position at which the node's row or its services changed. A node that is not there has the last position
    /// at which any node went, or 1.
    pub fn node_index(&self, node: &str) -> u64
        ensures { result ≡ host_position node.now self.now.now }
    {
        self.hosts.own(node).unwrap_or(self.positions.gone)
    }

    /// The last position at which the node's checks changed, or 1.
    pub fn node_checks_index(&self, node: &str) -> u64
        ensures { result ≡ host_checks_position node.now self.now.now }
    {
        self.host_checks.own(node).unwrap_or(1)
    }

    /// The last position at which the table changed, or 1.
    pub fn index(&self, table: Table) -> u64
        ensures { result ≡ table_position table self.now.now }
    {
        self.positions.at(table)
    }

    /// The last position at which what belongs to the service name changed. A name without rows has the last position
    /// at which any name lost its last row, or 1.
    pub fn service_index(&self, name: &str) -> u64
        ensures { result ≡ name_position name.now self.now.now }
    {
        self.names.own(name).unwrap_or(self.positions.vanished)
    }

    /// Makes the index as it is now that to which `undo` goes back.
    pub fn keep(&mut self)
        ensures now { self.new.now ≡ self.old.now }
        ensures before { self.new.before ≡ self.old.now }
    {
        self.names.keep();
        self.hosts.keep();
        self.host_checks.keep();
        self.kept = self.positions;
    }

    /// Makes the index again what it was at the last `keep`, or at `new` where there was none.
    pub fn undo(&mut self)
        ensures now { self.new.now ≡ self.old.before }
        ensures before { self.new.before ≡ self.old.before }
    {
        self.names.undo();
        self.hosts.undo();
        self.host_checks.undo();
        self.positions = self.kept;
    }
}
