//! The objects that go in a deletion: one, and all that are below it.

ghost use Rattle.std.specs.Prelude.{◌≡◌};
ghost use Rattle.ad_dir_model.specs.Changes.{goes_with};
ghost use Rattle.ad_change.specs.Removing.{IsLeaving};

use ad_dir::{Dir, is_below};

/// Whether an object goes with the one that is deleted, of which it is said whether it stands alone.
#[tactic(auto, unfolding(ad_dir_model::specs::Changes::goes_with))]
pub(crate) fn goes_with(dir: &Dir, target: u32, alone: bool, number: u32) -> bool
    requires { IsLeaving dir.now target alone }
    ensures { result ≡ goes_with dir.now target number }
{
    dir.invariants();
    if number == target {
        return true;
    }
    if alone {
        return false;
    }
    is_below(dir, target, number)
}
