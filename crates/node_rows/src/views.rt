//! The rows of an agent and those that the catalog has of its node, looked at where they stand.

use cat_model::{CheckRow, NodeRow, ServiceRow};
use row_table::Seen;
use std::marker::Model;

/// An agent's own rows.
#[derive(Drop)]
pub struct OwnRows<'a> {
    pub node: Option<&'a NodeRow>,
    pub services: Vec<Seen<'a, ServiceRow>>,
    pub checks: Vec<Seen<'a, CheckRow>>,
}

impl<'a> Model for OwnRows<'a> {
    ghost use Rattle.std.specs.Option.{option_copied};
    ghost use Rattle.cat_model.specs.declared.fired.Local.{Local};

    ghost Value = { Local };

    ghost view = { λ o. record { node = option_copied o.node; services = o.services.items; checks = o.checks.items } };
}

/// The catalog's rows of an agent's node.
#[derive(Drop)]
pub struct CatalogRows<'a> {
    pub node: Option<&'a NodeRow>,
    pub services: Vec<Seen<'a, ServiceRow>>,
    pub checks: Vec<Seen<'a, CheckRow>>,
}

impl<'a> Model for CatalogRows<'a> {
    ghost use Rattle.std.specs.Option.{option_copied};
    ghost use Rattle.cat_model.specs.declared.fired.Remote.{Remote};

    ghost Value = { Remote };

    ghost view = { λ o. record { node = option_copied o.node; services = o.services.items; checks = o.checks.items } };
}
