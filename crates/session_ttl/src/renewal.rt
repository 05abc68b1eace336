//! The renewals of sessions in office, of each session the last one.

ghost use Rattle.std.specs.Prelude.{◌≡◌, OnErr, OnOk};
ghost use Rattle.std.specs.Ordering.{nat_cmp};
ghost use Rattle.std.proofs.lemmas.Cmp.{nat_cmp_total};
ghost use Rattle.std.proofs.lemmas.Map.Lookups.{exact_unsigned};
ghost use Rattle.cat_model.specs.Delays.{ttl_start};
ghost use Rattle.cat_model.specs.Tables.{put};
ghost use Rattle.cluster_rules.specs.Offices.{renewal_id};

use cat_model::Memory;
use row_table::{Probe, Row, RowTable};
use std::cmp::Ordering;
use std::marker::Model;

/// A session's last renewal, by the server's clock, in milliseconds.
#[derive(Drop)]
pub(crate) struct Renewal {
    pub(crate) session: u128,
    pub(crate) clock: u64,
}

impl Model for Renewal {
    ghost use Rattle.cat_model.specs.Delays.{Start};

    ghost Value = { Start };

    ghost view = { λ r. record { session = r.session; clock = r.clock } };
}

impl Row for Renewal {
    type Key = u128;

    ghost key = { renewal_id };

    ghost cmp = { nat_cmp };

    ghost total = { nat_cmp_total };

    ghost exact = { exact_unsigned };

    fn order(&self, other: &Renewal) -> Ordering {
        self.session.cmp(&other.session)
    }

    fn copy(&self) -> Result<Renewal, Memory> {
        Ok(Renewal {
            session: self.session,
            clock: self.clock,
        })
    }
}

/// Looks for the renewal of this session.
#[derive(Clone, Copy)]
pub(crate) struct Of(pub(crate) u128);

impl Probe<Renewal> for Of {
    ghost sought = { λ p. p.0 };

    fn place(&self, row: &Renewal) -> Ordering {
        row.session.cmp(&self.0)
    }
}

/// Puts the session's renewal in the place of the one that it had.
pub(crate) fn renew(
    renewals: &mut RowTable<Renewal>,
    session: u128,
    clock: u64,
) -> Result<(), Memory>
    ensures ok { OnOk result (renewals.new.now ≡ put nat_cmp renewal_id (record { session = session; clock = clock }) renewals.old.now) }
    ensures err { OnErr result (renewals.new.now ≡ renewals.old.now) }
{
    match renewals.set(Renewal { session, clock }) {
        Ok(()) => {
            renewals.keep();
            Ok(())
        }
        Err((_, memory)) => Err(memory),
    }
}

/// The clock from which on the session lives in an office that was taken then: the one of its renewal, if that is later.
pub(crate) fn start(renewals: &RowTable<Renewal>, session: u128, office: u64) -> u64
    ensures { result ≡ ttl_start session office renewals.now.now }
{
    renewals.in_order();
    match renewals.get(&Of(session)) {
        None => office,
        Some(renewal) => renewal.clock.max(office),
    }
}
