//! Laws of causes. Each is the contract of a function that does nothing.

ghost use Rattle.std.specs.Prelude.{◌≡◌, []};
ghost use Rattle.ad_dir_model.specs.Directory.{Directory};
ghost use Rattle.ad_dir_model.specs.Soundness.{IsSound};
ghost use Rattle.ad_causes.specs.Causes.{causes};

/// From a sound directory to itself there is no cause.
pub fn equal_directories_have_no_cause()
    ensures { (dir : Directory) → IsSound dir → causes dir dir ≡ [] }
{}
