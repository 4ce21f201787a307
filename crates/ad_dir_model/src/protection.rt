//! Laws of protection. Each is the contract of a function that does nothing.

ghost use Rattle.std.specs.Prelude.{◌≡◌, ◌↔◌, ℕ, Option, Some, None, true};
ghost use Rattle.ad_dir_model.specs.Objects.{Rise, object_at, sd_at};
ghost use Rattle.ad_dir_model.specs.Directory.{Directory};
ghost use Rattle.ad_dir_model.specs.Names.{admin_sd_holder};
ghost use Rattle.ad_dir_model.specs.Protection.{frozen, has, IsProtected, protected, admin_count, has_mark};
ghost use Rattle.ad_dir_model.specs.Protection.{protection_run};
ghost use Rattle.ad_dir_model.specs.Soundness.{IsSound};

/// The list of protected objects has exactly those to which protection spreads in every closed set, and those that
/// are protected alone.
pub fn the_protected_objects_are_the_least_set()
    ensures { (dir : Directory) (number : ℕ) → Rise dir.objects
        → (has (protected dir) number ≡ true) ↔ IsProtected dir number }
{}

/// A protection run keeps a directory sound.
pub fn a_protection_run_keeps_a_directory_sound()
    ensures { (dir : Directory) → IsSound dir → IsSound (protection_run dir).directory }
{}

/// After a run each protected object has the frozen descriptor that AdminSDHolder had before it, and adminCount 1
/// where the schema has it; every other object is as it was. Without AdminSDHolder the run does nothing.
pub fn a_protection_run_gives_the_frozen_descriptor()
    ensures descriptor { (dir : Directory) (holder number : ℕ) → IsSound dir → admin_sd_holder dir
        ≡ Some holder
        → IsProtected dir number → sd_at (protection_run dir).directory.objects number
        ≡ frozen (sd_at dir.objects holder) }
    ensures count { (dir : Directory) (holder number : ℕ) → IsSound dir → admin_sd_holder dir
        ≡ Some holder
        → IsProtected dir number → has_mark (admin_count (protection_run dir).directory.schema)
        (object_at (protection_run dir).directory.objects number) ≡ true }
    ensures others { (dir : Directory) (number : ℕ) → IsSound dir → (IsProtected dir number → ⊥)
        → object_at (protection_run dir).directory.objects number ≡ object_at dir.objects number }
    ensures nothing { (dir : Directory) → admin_sd_holder dir ≡ None → protection_run dir
        ≡ record { directory = dir; changed = 0; protected = 0 } }
{}

/// A second run at once changes nothing.
pub fn a_second_protection_run_changes_nothing()
    ensures { (dir : Directory) → IsSound dir → protection_run (protection_run dir).directory
        ≡ record {
          directory = (protection_run dir).directory;
          changed = 0;
          protected = (protection_run dir).protected;
        } }
{}
