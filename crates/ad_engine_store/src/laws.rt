//! What holds of every engine.

ghost use Rattle.std.specs.Prelude.{ℕ, List};
ghost use Rattle.site_io.specs.Disk.{GoesOn, LeavesEmitted};
ghost use Rattle.site_io.specs.Told.{StaysTold};
ghost use Rattle.ad_engine_store.specs.Standing.{StandsIn};
ghost use Rattle.ad_engine_store.specs.declared.dir_store.DirStore.{DirStore};

use site_io::Site;

/// An emit keeps an engine standing in its site.
pub fn emit_keeps<S: Site>()
    ensures { (engine : DirStore) (old new : _) (bytes : List ℕ) → StandsIn engine (S.reads old)
        (S.now old) (S.left old) → StaysTold (S.reads old) (S.reads new)
        → GoesOn (S.now old) (S.now new) (S.left old) (S.left new) → LeavesEmitted bytes (S.now old)
        (S.left old) (S.left new)
        → StandsIn engine (S.reads new) (S.now new) (S.left new) }
{}
