//! Laws of what a view keeps, each the contract of a function with an empty body.

ghost use Rattle.std.specs.Prelude.{◌≡◌, ℕ, [], List, Option};
ghost use Rattle.cat_model.specs.Catalog.{Catalog};
ghost use Rattle.cat_model.specs.Queries.{answer};
ghost use Rattle.cat_model.specs.Channels.{chans};
ghost use Rattle.cat_model.specs.Executions.{execution};
ghost use Rattle.cat_model.specs.Views.{Kept, kept_index};
ghost use Rattle.cat_model.specs.declared.query.Query.{Query};
ghost use Rattle.kv_table.specs.States.{empty_state};
ghost use Rattle.catalog_table.specs.Rows.{no_rows};
ghost use Rattle.touch_positions.specs.States.{first_state};
ghost use Rattle.catalog_query.specs.Standing.{rows_at, kept_at, kept_of, Stands};

/// What new tables keep stands for the empty log.
pub fn first_view()
    ensures { Stands (kept_of empty_state no_rows [] [] first_state) [] }
{}

/// No query and no execution reads the version of the machine.
pub fn version_unread()
    ensures answers { (version : ℕ) (k : Catalog) (query : Query) → answer query k ≡ answer query (rows_at version k) }
    ensures chans { (version : ℕ) (k : Catalog) (query : Query) → chans query k ≡ chans query (rows_at version k) }
    ensures indexes { (version : ℕ) (kept : Kept) (query : Query) → kept_index query kept ≡ kept_index query (kept_at version kept) }
    ensures executions { (version : ℕ) (k : Catalog) (id : Option ℕ) (name : List ℕ) (limit : ℕ) → execution k id name limit ≡ execution (rows_at version k) id name limit }
{}
