//! The store of a directory that was loaded. Each object is given back once its row is written, and no index is made.

ghost use Rattle.std.specs.Prelude.{ℕ, List, IfSome, IfOk, OnOk};
ghost use Rattle.site_io.specs.Disk.{Images};
ghost use Rattle.ad_dir_model.specs.Soundness.{IsSound};
ghost use Rattle.row_store.specs.Table.{table_of};
ghost use Rattle.ad_rows_write.specs.Rows.{AreRowsOf, IsStoreOf};
ghost use Rattle.ad_engine_store.specs.Faults.{IsCreating};

use ad_engine_store::OpenFault;
use ad_load::Parts;
use ad_rows::write_parts;
use row_store::{Store, WrittenRows};
use site_io::Site;
use std::alloc::{AllocError, Global};

// The rows of a directory.
fn rows_of(alloc: Global, dir: Parts) -> Result<WrittenRows, AllocError>
    requires { IsSound dir }
    ensures { IfOk result (λ rows. AreRowsOf dir (table_of rows)) }
{
    let (schema, objects, meta) = dir.into_parts();
    write_parts(alloc, &schema, objects, &meta)
}

/// Makes the store of a directory in two empty slots.
pub(crate) fn create_store<S: Site>(
    alloc: Global,
    site: &mut S,
    dir: Parts,
) -> Result<(), OpenFault>
    requires { IsSound dir }
    ensures held { OnOk result (IfSome (S.reads site.new) (λ held. IsStoreOf held dir)) }
    ensures every_crash { OnOk result (IfSome (S.reads site.new) (λ held.
        (images : Images) (out : List ℕ) → S.left site.new (S.now site.new) images out
        → IsStoreOf images dir)) }
    ensures creating { IsCreating S.Site site.old site.new result }
{
    let rows = rows_of(alloc, dir)?;
    let store = Store::create_of(alloc, site, rows)?;
    drop(store);
    Ok(())
}
