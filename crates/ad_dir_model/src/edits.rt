//! Laws of edits: those of each change, applied in order, make what the change is defined to make. Each is the
//! contract of a function that does nothing.

ghost use Rattle.std.specs.Prelude.{◌≡◌, ℕ, List};
ghost use Rattle.ad_dir_model.specs.Object.{Object};
ghost use Rattle.ad_dir_model.specs.Objects.{Rise};
ghost use Rattle.ad_dir_model.specs.Directory.{Directory, all_edited};
ghost use Rattle.ad_dir_model.specs.Inheritance.{stored, written};
ghost use Rattle.ad_dir_model.specs.Steps.{step};
ghost use Rattle.ad_dir_model.specs.Changes.{changed, renamed, added, deleted};
ghost use Rattle.ad_dir_model.specs.Protection.{protection_run};
ghost use Rattle.ad_dir_model.specs.Edits.{change_edits, store_edits, write_edits, rename_edits, add_edits};
ghost use Rattle.ad_dir_model.specs.Edits.{step_edits, delete_edits, run_edits};
ghost use Rattle.ad_dir_model.specs.Conditions.{AreOfDeletion};

/// Writes of values and of descriptors, renames and moves.
pub fn the_edits_of_a_write_make_it()
    ensures values { (dir : Directory) (o : Object) → all_edited (change_edits o) dir
        ≡ changed dir o }
    ensures descriptor { (dir : Directory) (o : Object) → all_edited (write_edits dir o) dir
        ≡ written dir o }
    ensures as_it_is { (dir : Directory) (o : Object) → all_edited (store_edits dir o) dir
        ≡ stored dir o }
    ensures rename { (dir : Directory) (number parent : ℕ) (name : List ℕ)
        → all_edited (rename_edits dir number parent name) dir ≡ renamed dir number parent name }
{}

/// An addition.
pub fn the_edits_of_an_addition_make_it()
    ensures { (dir : Directory) (o : Object) → all_edited (add_edits dir o) dir ≡ added dir o }
{}

/// A step; where nothing is pending there are none.
pub fn the_edits_of_a_step_make_it()
    ensures { (dir : Directory) → all_edited (step_edits dir) dir ≡ step dir }
{}

/// A deletion, in whatever order the objects go.
pub fn the_edits_of_a_deletion_make_it()
    ensures { (dir : Directory) (number : ℕ) (losing going : List ℕ) → Rise dir.objects
        → AreOfDeletion dir number losing going → all_edited (delete_edits dir number losing going)
        dir
        ≡ deleted dir number }
{}

/// A protection run, of which only the objects that change are put.
pub fn the_edits_of_a_protection_run_make_it()
    ensures { (dir : Directory) → Rise dir.objects → all_edited (run_edits dir) dir
        ≡ (protection_run dir).directory }
{}
