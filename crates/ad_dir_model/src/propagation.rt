//! Laws of propagation. Each is the contract of a function that does nothing.

ghost use Rattle.std.specs.Prelude.{◌≡◌, ◌≢◌, ℕ, ◌^◌, ◌<◌, ◌≤◌, true, []};
ghost use Rattle.ad_dir_model.specs.Objects.{is_live, sd_at};
ghost use Rattle.ad_dir_model.specs.Directory.{Directory};
ghost use Rattle.ad_dir_model.specs.Inheritance.{scratch};
ghost use Rattle.ad_dir_model.specs.Steps.{step, EmptiesAfter, work};
ghost use Rattle.ad_dir_model.specs.Soundness.{IsSound};

/// Where nothing is pending in a sound directory, each descriptor is the one that is recomputed from the root.
pub fn an_empty_queue_means_recomputed_from_the_root()
    ensures { (dir : Directory) (number : ℕ) → IsSound dir → dir.pending ≡ []
        → is_live dir.objects number ≡ true
        → sd_at dir.objects number ≡ scratch dir number }
{}

/// A step keeps a directory sound, whatever is pending and however far it came.
pub fn a_step_keeps_a_directory_sound()
    ensures { (dir : Directory) → IsSound dir → IsSound (step dir) }
{}

/// As long as anything is pending, a step lowers the work.
pub fn a_step_lowers_the_work()
    ensures { (dir : Directory) → IsSound dir → dir.pending ≢ [] → work (step dir) < work dir }
{}

/// The work is below 2^24.
pub fn the_work_is_bounded()
    ensures { (dir : Directory) → IsSound dir → work dir < 2 ^ 24 }
{}

/// There is one number of steps after which, and not before, nothing is pending; and it is at most the work.
pub fn the_queue_empties_once()
    ensures within { (dir : Directory) → IsSound dir → (n : ℕ) × (n ≤ work dir)
        × EmptiesAfter n dir }
    ensures once { (dir : Directory) (n m : ℕ) → EmptiesAfter n dir → EmptiesAfter m dir → n ≡ m }
{}
