//! Rows one after the other.

ghost use Rattle.std.specs.Prelude.{◌≡◌, ◌++◌, ◌∷◌, [], List, IfOk};
ghost use Rattle.row_store.specs.declared.row.Row.{Row as RowValue};

use row_store::{Row, WrittenRows};
use std::alloc::AllocError;

/// Rows one after the other, as they are or written.
pub(crate) trait RowList: Drop {
    /// The rows, in their order.
    ghost rows: { Self → List RowValue };

    /// One row more.
    fn with(self, row: Row) -> Result<Self, AllocError>
        ensures { IfOk result (λ more. rows more ≡ rows self ++ row ∷ []) };
}

impl RowList for Vec<Row> {
    ghost rows = { λ rows. rows.items };

    fn with(self, row: Row) -> Result<Vec<Row>, AllocError> {
        let mut rows = self;
        rows.push(row)?;
        Ok(rows)
    }
}

impl RowList for WrittenRows {
    ghost rows = { λ rows. rows };

    fn with(self, row: Row) -> Result<WrittenRows, AllocError> {
        self.push(&row)
    }
}
