//! What holds of the number that is told of a directory.

ghost use Rattle.std.specs.Prelude.{◌≡◌, ℕ};
ghost use Rattle.ad_dir_model.specs.Directory.{Directory};
ghost use Rattle.ad_dir_model.specs.Soundness.{IsSound};
ghost use Rattle.ad_rows_sound.specs.Told.{IsToldAt};

/// Of a sound directory no number is told, and of any other one at most.
pub fn one_number_is_told()
    ensures never { (dir : Directory) (number : ℕ) → IsSound dir → IsToldAt dir number → ⊥ }
    ensures once { (dir : Directory) (n m : ℕ) → IsToldAt dir n → IsToldAt dir m → n ≡ m }
{}
