//! Laws of the records of a journal, each the contract of a function with an empty body.

ghost use Rattle.std.specs.Prelude.{◌≡◌, ◌++◌, ◌∷◌, ℕ, List, Ok};
ghost use Rattle.store_records.specs.declared.records.Record.{Record};
ghost use Rattle.store_records.specs.Records.{HasSpelling, record_bytes};
ghost use Rattle.store_records.specs.RecordReading.{AreBytes, IsCut, record_at};

/// What was written is read, and what stands behind it is left.
#[tactic(auto, using(crate::proofs::RecordReads::record_whole))]
pub fn written_is_read()
    ensures { (item : Record) (rest : List ℕ) → HasSpelling item → AreBytes (record_bytes item ++ rest) → record_at (record_bytes item ++ rest) ≡ Ok (item, rest) }
{}

/// Each front of a spelling that is not all of it is cut off in a record.
pub fn fronts_are_cut()
    ensures { (item : Record) → HasSpelling item → (front : List ℕ) (next : ℕ) (more : List ℕ) → record_bytes item ≡ front ++ next ∷ more → IsCut front }
{}
