//! The store of a directory, and the tokens of no connection.

ghost use Rattle.std.specs.Prelude.{◌≡◌, ℕ, List, [], length, IfSome, IfOk, OnOk};
ghost use Rattle.site_io.specs.Disk.{Images};
ghost use Rattle.ad_dir_model.specs.Soundness.{IsSound};
ghost use Rattle.ad_rows_write.specs.Rows.{IsStoreOf};
ghost use Rattle.ad_engine_store.specs.Standing.{HoldsRows, IsKept};
ghost use Rattle.ad_engine_store.specs.Faults.{IsCreating};

use crate::Tokens;
use crate::fault::OpenFault;
use ad_dir::Dir;
use ad_rows::write_rows;
use row_store::Store;
use site_io::Site;
use std::alloc::Global;

/// Makes a store of a directory in two empty slots, as `DirStore::create` says.
pub(crate) fn store_of<S: Site>(
    alloc: Global,
    site: &mut S,
    dir: &Dir,
) -> Result<(Store, Tokens), OpenFault>
    requires { IsSound dir.now }
    ensures kept { IfOk result (λ made. IsKept made.0 dir.now (S.reads site.new) (S.now site.new)
        (S.left site.new)) }
    ensures tokens { IfOk result (λ made. made.1 ≡ []) }
    ensures held { OnOk result (IfSome (S.reads site.new) (λ held. IsStoreOf held dir.now)) }
    ensures every_crash { OnOk result (IfSome (S.reads site.new) (λ held.
        (images : Images) (out : List ℕ) → S.left site.new (S.now site.new) images out
        → IsStoreOf images dir.now)) }
    ensures empty { OnOk result (IfSome (S.reads site.old)
        (λ held. (length held.a ≡ 0) × (length held.b ≡ 0))) }
    ensures creating { IsCreating S.Site site.old site.new result }
{
    let tokens = Tokens::new(alloc)?;
    let rows = write_rows(alloc, dir)?;
    let store = Store::create_of(alloc, site, rows)?;
    Ok((store, tokens))
}
