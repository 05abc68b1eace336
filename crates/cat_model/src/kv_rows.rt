ghost use Rattle.std.specs.Prelude.{◌≡◌, ℕ, List, IfOk, filter, is_some};
ghost use Rattle.std.specs.Option.{option_copied};
ghost use Rattle.cat_model.specs.declared.row.KvRow.{KvRow};
ghost use Rattle.cat_model.specs.declared.row.SessionRow.{SessionRow};
ghost use Rattle.cat_model.specs.Keys.{has_prefix};
ghost use Rattle.cat_model.specs.Catalog.{kv_at, session_at};

use crate::{KvRow, List, Memory};
use std::alloc::Global;

/// The rows of the keys and the sessions, on which the operations of a transaction are done, with the version of the
/// catalog machine that does them.
pub trait KvRows {
    ghost version: { Self → ℕ };

    ghost rows: { Self → List KvRow };

    ghost sessions: { Self → List SessionRow };

    /// The version of the machine, 1 or 2.
    fn version(&self) -> u32
        ensures { result ≡ version self.now };

    /// The row of the key.
    fn row(&self, key: &str) -> Option<&KvRow>
        ensures { option_copied result ≡ kv_at key.now (rows self.now) };

    /// Copies of the rows whose key has the prefix, in byte order.
    fn rows_under(&self, alloc: Global, prefix: &str) -> Result<List<KvRow>, Memory>
        ensures { IfOk result (λ l. l ≡ filter (λ r. has_prefix prefix.now r.key) (rows self.now)) };

    /// Whether the session is there.
    fn session_known(&self, id: u128) -> bool
        ensures { result ≡ is_some (session_at id (sessions self.now)) };
}
