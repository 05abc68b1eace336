//! Which writes a lock delay holds back.

ghost use Rattle.std.specs.Prelude.{◌≡◌, nat_lt};
ghost use Rattle.std.specs.Option.{option_copied};
ghost use Rattle.cluster_rules.specs.Locks.{delayed, first_delayed, is_lock};
ghost use Rattle.cluster_rules.specs.Offices.{delay_over};

use crate::replica::Replica;
use cat_model::{Command, TxnOp, Verb};

fn is_lock(verb: Verb) -> bool
    ensures { result ≡ is_lock verb }
{
    matches!(verb, Verb::Lock)
}

impl Replica {
    // The lock delay of the key is not over at this time of the server's clock.
    fn is_delayed(&self, key: &str, now: u64) -> bool
        ensures { result ≡ nat_lt now (delay_over self.now.commands self.now.clocks key.now) }
    {
        u128::from(now) < self.delay_over(key)
    }

    // The first key that an operation is to lock whose lock delay is not over.
    fn first_delayed<'a>(&self, ops: &'a [TxnOp], now: u64) -> Option<&'a str>
        ensures { option_copied result ≡ first_delayed (delay_over self.now.commands self.now.clocks) now ops.now }
    {
        'ops: for op in ops {
            if is_lock(op.verb) && self.is_delayed(op.key.as_str(), now) {
                return Some(op.key.as_str());
            }
        }
        None
    }

    /// The first key that the command is to lock whose lock delay is not over at this time of the server's clock.
    pub fn delayed<'a>(&self, command: &'a Command, now: u64) -> Option<&'a str>
        ensures { option_copied result ≡ delayed (delay_over self.now.commands self.now.clocks) now command.now }
    {
        match command {
            Command::KvLock { key, .. } => {
                if self.is_delayed(key.as_str(), now) {
                    Some(key.as_str())
                } else {
                    None
                }
            }
            Command::Txn { ops } => self.first_delayed(ops.as_slice(), now),
            _ => None,
        }
    }
}
