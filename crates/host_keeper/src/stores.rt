//! Stores over journals.

ghost use Rattle.std.specs.Prelude.{◌≡◌};
ghost use Rattle.std.specs.Option.{ForSome};
ghost use Rattle.serve_outside.specs.Stores.{KeepsLimits};
ghost use Rattle.file_keeper.specs.Journal.{faults_of, held_by};

use file_keeper::{FileKeeper, journals_keep_limits};
use server_journal::Journal;

/// The store over this journal, as a server begins with it.
pub(crate) fn over<J: Journal>(journal: J) -> FileKeeper<J>
    requires { J.faults journal ≡ 0 }
    ensures bytes { result.bytes ≡ J.bytes journal }
    ensures unused { (result.armed ≡ 0) × (faults_of result ≡ 0) }
    ensures limits { ForSome (held_by result.bytes) KeepsLimits }
{
    journals_keep_limits();
    FileKeeper::new(journal)
}
