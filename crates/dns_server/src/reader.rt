//! What reads the catalog, and tells how much of it.

ghost use Rattle.std.specs.Prelude.{◌≡◌, IfOk, length};
ghost use mathlib.Core.List.{IsPrefix};

use cat_model::Memory;
use dns_service::CatalogReader;
use std::alloc::Global;

/// A reader of the catalog that tells how many commands made it. They only grow, so those of equal counts are equal.
pub trait CountedReader: CatalogReader {
    /// Goes on to the catalog as it is now, and says how many commands made it. It costs much less than a reply.
    fn count(&mut self, alloc: Global) -> Result<u64, Memory>
        ensures grown { IsPrefix (Self.commands self.old) (Self.commands self.new) }
        ensures count { IfOk result (λ n. n ≡ length (Self.commands self.new)) };
}
