//! What holds of the rows of every directory.

ghost use Rattle.std.specs.Prelude.{◌≡◌, ◌∷◌, [], List};
ghost use Rattle.ad_dir_model.specs.Soundness.{IsSound};
ghost use Rattle.row_store.specs.declared.row.Row.{Row};
ghost use Rattle.row_store.specs.Table.{Table, with_rows};
ghost use Rattle.ad_dir_model.specs.Directory.{Directory, Edit, edited, all_edited};
ghost use Rattle.ad_rows_write.specs.Batch.{AreRowsOfEdits};
ghost use Rattle.ad_rows_write.specs.Rows.{AreRowsOf, IsRowOf, IsStoreOf};
ghost use Rattle.site_io.specs.Disk.{Images};

/// Where rows represent a directory, they represent it after an edit, once the edit's row is among them.
pub fn a_row_follows_its_edit()
    ensures { (dir : Directory) (table : Table) (edit : Edit) (row : Row) → AreRowsOf dir table
        → IsRowOf edit row
        → AreRowsOf (edited edit dir) (with_rows table (row ∷ [])) }
{}

/// Where rows represent a directory, they represent it after edits, made one after the other, once the rows of the
/// edits' batch are among them.
pub fn a_batch_follows_its_edits()
    ensures { (dir : Directory) (table : Table) (edits : List Edit) (rows : List Row)
        → AreRowsOf dir table → AreRowsOfEdits edits rows
        → AreRowsOf (all_edited edits dir) (with_rows table rows) }
{}

/// Rows represent one sound directory at most.
pub fn rows_stand_for_one_directory()
    ensures { (a b : Directory) (table : Table) → IsSound a → IsSound b → AreRowsOf a table
        → AreRowsOf b table → a ≡ b }
{}

/// The slots of a store represent one directory at most.
pub fn slots_stand_for_one_directory()
    ensures { (images : Images) (a b : Directory) → IsStoreOf images a → IsStoreOf images b → a
        ≡ b }
{}
