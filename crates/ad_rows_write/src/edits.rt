//! The rows of a list of edits.

ghost use Rattle.std.specs.Prelude.{map, All, IfOk};
ghost use Rattle.ad_dir.specs.Conditions.{HasNormal};
ghost use Rattle.ad_dir_objects.specs.Seen.{edit_seen};
ghost use Rattle.ad_rows_write.specs.Batch.{AreRowsOfEdits};

use crate::noting::Batch;
use ad_dir::Edit;
use row_store::Row;
use std::alloc::{AllocError, Global};

/// The rows that edits change, made one after the other: at most one of a kind and number, that of the last edit of
/// it, by rising kind and number.
///
/// # Errors
///
/// Out of memory.
pub fn batch(alloc: Global, edits: &[Edit]) -> Result<Vec<Row>, AllocError>
    requires { All HasNormal edits.now }
    ensures { IfOk result (λ rows. AreRowsOfEdits (map edit_seen edits.now) rows.items) }
{
    let mut batch = Batch::new(alloc);
    for edit in edits {
        batch.note(edit)?;
    }
    batch.rows()
}
