//! What holds of every store.

ghost use Rattle.std.specs.Prelude.{◌≡◌, ℕ, List};
ghost use Rattle.site_io.specs.Disk.{Images, GoesOn, LeavesEmitted};
ghost use Rattle.site_io.specs.Told.{StaysTold};
ghost use Rattle.gate_log.specs.StoreOfLog.{StandsIn};
ghost use Rattle.gate_log.specs.declared.log.Log.{Log};
ghost use Rattle.gate_log.specs.Store.{HasBodies, IsEmptyStore};

use site_io::Site;

/// Slots represent one list of bodies at most, and those of an empty store for none.
pub fn one_list()
    ensures one { (images : Images) (bodies others : List (List ℕ)) → HasBodies images bodies
        → HasBodies images others → others ≡ bodies }
    ensures none { (images : Images) (bodies : List (List ℕ)) → IsEmptyStore images
        → ¬ HasBodies images bodies }
{}

/// An emit keeps a log standing in its site.
pub fn emit_keeps<S: Site>()
    ensures { (log : Log) (old new : _) (bytes : List ℕ) → StandsIn log (S.reads old) (S.now old)
        (S.left old) → StaysTold (S.reads old) (S.reads new)
        → GoesOn (S.now old) (S.now new) (S.left old) (S.left new)
        → LeavesEmitted bytes (S.now old) (S.left old) (S.left new)
        → StandsIn log (S.reads new) (S.now new) (S.left new) }
{}
