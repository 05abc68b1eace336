//! Laws of what a server has applied, each the contract of a function with an empty body.

ghost use Rattle.std.specs.Prelude.{◌≡◌, List};
ghost use Rattle.cat_model.specs.Machine.{catalog_at};
ghost use Rattle.cat_model.specs.declared.command.Command.{Command};
ghost use Rattle.cat_model.specs.declared.row.QueryRow.{QueryRow};
ghost use Rattle.cat_model.specs.declared.row.SessionRow.{SessionRow};
ghost use Rattle.kv_table.specs.States.{KvState};
ghost use Rattle.catalog_table.specs.Rows.{Rows};
ghost use Rattle.touch_positions.specs.States.{IndexState};
ghost use Rattle.catalog_store.specs.Standing.{KeysStand, RowsStand, PositionsStand};
ghost use Rattle.catalog_query.specs.Standing.{kept_of, Stands};

/// Where each of a store's tables stands for a log, what they keep together stands for it.
pub fn tables_stand()
    ensures { (kv : KvState) (rows : Rows) (sessions : List SessionRow) (queries : List QueryRow) (index : IndexState) (log : List Command) → KeysStand kv log → RowsStand rows log → sessions ≡ (catalog_at log).sessions → queries ≡ (catalog_at log).queries → PositionsStand index log → Stands (kept_of kv rows sessions queries index) log }
{}
