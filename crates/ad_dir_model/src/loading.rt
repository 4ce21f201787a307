//! The law of a directory whose inheritance was recomputed from the root. It is the contract of a function that
//! does nothing.

ghost use Rattle.std.specs.Prelude.{◌≡◌, ℕ, true, []};
ghost use Rattle.ad_inherit.specs.Whole.{explicit_part};
ghost use Rattle.ad_dir_model.specs.Objects.{is_live, sd_at};
ghost use Rattle.ad_dir_model.specs.Directory.{Directory};
ghost use Rattle.ad_dir_model.specs.Loading.{recomputed};
ghost use Rattle.ad_dir_model.specs.Soundness.{IsSound};
ghost use Rattle.ad_dir_model.specs.Conditions.{IsAllRead};

/// What was read and then recomputed from the root is sound, nothing is pending in it, and what is explicit is as
/// it was.
pub fn what_is_recomputed_from_the_root_is_sound()
    ensures sound { (dir : Directory) → IsAllRead dir → IsSound (recomputed dir) }
    ensures empty { (dir : Directory) → (recomputed dir).pending ≡ [] }
    ensures explicit { (dir : Directory) (number : ℕ) → IsAllRead dir → is_live dir.objects number
        ≡ true
        → explicit_part (sd_at (recomputed dir).objects number)
        ≡ explicit_part (sd_at dir.objects number) }
{}
