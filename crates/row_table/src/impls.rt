//! The catalog's rows by their keys: a key's row by the key, a node by its name, a service and a check by its node and its
//! ID there, a session and a prepared query by its identifier.

ghost use Rattle.std.specs.Prelude.{◌≡◌};
ghost use Rattle.std.specs.Ordering.{nat_cmp};
ghost use Rattle.std.proofs.lemmas.Cmp.{nat_cmp_total, nat_list_cmp_total};
ghost use Rattle.std.proofs.lemmas.Map.Lookups.{exact_bytes, exact_unsigned};
ghost use Rattle.cat_model.specs.Keys.{text_cmp, pair_cmp};
ghost use Rattle.cat_model.specs.Catalog.{kv_key, node_key, service_key, check_key, session_key, query_key};
ghost use Rattle.cat_model.proofs.Pairs.{pair_cmp_total, exact_pair};
ghost use Rattle.row_table.specs.FirstTexts.{first_rises};

use crate::{Group, Probe, Row};
use cat_model::{CheckRow, KvRow, Memory, NodeRow, QueryRow, ServiceRow, SessionRow, Text};
use std::cmp::Ordering;

/// Looks for the row of this key.
#[derive(Clone, Copy)]
pub struct ByKey<'a>(pub &'a str);

/// Looks for the node of this name, or for the services or the checks on it.
#[derive(Clone, Copy)]
pub struct ByNode<'a>(pub &'a str);

/// Looks for the service or the check of this ID on this node.
#[derive(Clone, Copy)]
pub struct ByPair<'a> {
    pub node: &'a str,
    pub id: &'a str,
}

/// Looks for the session or the prepared query of this identifier.
#[derive(Clone, Copy)]
pub struct ById(pub u128);

// By node and then by ID.
fn pair_order(a: &ByPair<'_>, b: &ByPair<'_>) -> Ordering
    ensures { result ≡ pair_cmp (a.now.node.now, a.now.id.now) (b.now.node.now, b.now.id.now) }
{
    a.node.cmp(b.node).then(a.id.cmp(b.id))
}

fn service_pair(row: &ServiceRow) -> ByPair<'_>
    ensures { (result.node.now, result.id.now) ≡ service_key row.now }
{
    ByPair {
        node: row.node.as_str(),
        id: row.id.as_str(),
    }
}

fn check_pair(row: &CheckRow) -> ByPair<'_>
    ensures { (result.node.now, result.id.now) ≡ check_key row.now }
{
    ByPair {
        node: row.node.as_str(),
        id: row.id.as_str(),
    }
}

impl Row for KvRow {
    type Key = Text;

    ghost key = { kv_key };

    ghost cmp = { text_cmp };

    ghost total = { nat_list_cmp_total };

    ghost exact = { exact_bytes };

    fn order(&self, other: &KvRow) -> Ordering {
        self.key.as_str().cmp(other.key.as_str())
    }

    fn copy(&self) -> Result<KvRow, Memory> {
        Ok(self.clone()?)
    }
}

impl Row for NodeRow {
    type Key = Text;

    ghost key = { node_key };

    ghost cmp = { text_cmp };

    ghost total = { nat_list_cmp_total };

    ghost exact = { exact_bytes };

    fn order(&self, other: &NodeRow) -> Ordering {
        self.node.as_str().cmp(other.node.as_str())
    }

    fn copy(&self) -> Result<NodeRow, Memory> {
        Ok(self.clone()?)
    }
}

impl Row for ServiceRow {
    type Key = (Text, Text);

    ghost key = { service_key };

    ghost cmp = { pair_cmp };

    ghost total = { pair_cmp_total };

    ghost exact = { exact_pair };

    fn order(&self, other: &ServiceRow) -> Ordering {
        pair_order(&service_pair(self), &service_pair(other))
    }

    fn copy(&self) -> Result<ServiceRow, Memory> {
        Ok(self.clone()?)
    }
}

impl Row for CheckRow {
    type Key = (Text, Text);

    ghost key = { check_key };

    ghost cmp = { pair_cmp };

    ghost total = { pair_cmp_total };

    ghost exact = { exact_pair };

    fn order(&self, other: &CheckRow) -> Ordering {
        pair_order(&check_pair(self), &check_pair(other))
    }

    fn copy(&self) -> Result<CheckRow, Memory> {
        Ok(self.clone()?)
    }
}

impl Row for SessionRow {
    type Key = u128;

    ghost key = { session_key };

    ghost cmp = { nat_cmp };

    ghost total = { nat_cmp_total };

    ghost exact = { exact_unsigned };

    fn order(&self, other: &SessionRow) -> Ordering {
        self.id.cmp(&other.id)
    }

    fn copy(&self) -> Result<SessionRow, Memory> {
        Ok(self.clone()?)
    }
}

impl Row for QueryRow {
    type Key = u128;

    ghost key = { query_key };

    ghost cmp = { nat_cmp };

    ghost total = { nat_cmp_total };

    ghost exact = { exact_unsigned };

    fn order(&self, other: &QueryRow) -> Ordering {
        self.id.cmp(&other.id)
    }

    fn copy(&self) -> Result<QueryRow, Memory> {
        Ok(self.clone()?)
    }
}

impl<'a> Probe<KvRow> for ByKey<'a> {
    ghost sought = { λ p. p.0.now };

    fn place(&self, row: &KvRow) -> Ordering {
        row.key.as_str().cmp(self.0)
    }
}

impl<'a> Probe<NodeRow> for ByNode<'a> {
    ghost sought = { λ p. p.0.now };

    fn place(&self, row: &NodeRow) -> Ordering {
        row.node.as_str().cmp(self.0)
    }
}

impl<'a> Probe<ServiceRow> for ByPair<'a> {
    ghost sought = { λ p. (p.node.now, p.id.now) };

    fn place(&self, row: &ServiceRow) -> Ordering {
        pair_order(&service_pair(row), self)
    }
}

impl<'a> Probe<CheckRow> for ByPair<'a> {
    ghost sought = { λ p. (p.node.now, p.id.now) };

    fn place(&self, row: &CheckRow) -> Ordering {
        pair_order(&check_pair(row), self)
    }
}

impl<'a> Group<ServiceRow> for ByNode<'a> {
    ghost stands = { λ g k. text_cmp k.0 g.0.now };

    ghost rises = { λ g. first_rises g.0.now };

    fn place(&self, row: &ServiceRow) -> Ordering {
        row.node.as_str().cmp(self.0)
    }
}

impl<'a> Group<CheckRow> for ByNode<'a> {
    ghost stands = { λ g k. text_cmp k.0 g.0.now };

    ghost rises = { λ g. first_rises g.0.now };

    fn place(&self, row: &CheckRow) -> Ordering {
        row.node.as_str().cmp(self.0)
    }
}

impl Probe<SessionRow> for ById {
    ghost sought = { λ p. p.0 };

    fn place(&self, row: &SessionRow) -> Ordering {
        row.id.cmp(&self.0)
    }
}

impl Probe<QueryRow> for ById {
    ghost sought = { λ p. p.0 };

    fn place(&self, row: &QueryRow) -> Ordering {
        row.id.cmp(&self.0)
    }
}
