//! Laws of journals, each the contract of a function with an empty body.

ghost use Rattle.std.specs.Prelude.{◌≡◌, ◌⊎◌, ◌++◌, ℕ, List, Some, true, take};
ghost use Rattle.std.specs.Option.{option_map};
ghost use Rattle.cat_model.specs.declared.kept.Kept.{Kept};
ghost use Rattle.cat_model.specs.LogLimits.{keeps_limits};
ghost use Rattle.store_records.specs.declared.records.Record.{Record};
ghost use Rattle.store_records.specs.RecordReading.{AreBytes};
ghost use Rattle.file_keeper.specs.Journal.{IsWhole, MayPut, kept_of, made};

/// Where a crash leaves any front of a record behind a whole journal, the bytes stand for what they stood for, or for
/// that with the record's call. So nothing that was answered before is lost, and no other call is made.
pub fn a_crash_leaves_old_or_new()
    ensures { (bytes piece : List ℕ) (call : Record) (count : ℕ) → AreBytes piece → MayPut (Some bytes) piece call → IsWhole bytes → (kept_of (bytes ++ take count piece) ≡ kept_of bytes) ⊎ (kept_of (bytes ++ take count piece) ≡ option_map (made call) (kept_of bytes)) }
{}

/// A journal stands for a log within its limits.
pub fn journals_keep_limits()
    ensures { (bytes : List ℕ) (kept : Kept) → kept_of bytes ≡ Some kept → keeps_limits kept.log ≡ true }
{}
