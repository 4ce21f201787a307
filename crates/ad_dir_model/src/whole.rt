//! Laws of a directory as it stands. Each is the contract of a function that does nothing.

ghost use Rattle.std.specs.Prelude.{◌≡◌, ℕ, Some, true};
ghost use Rattle.ad_dir_model.specs.Objects.{is_live};
ghost use Rattle.ad_dir_model.specs.Directory.{Directory as Model};
ghost use Rattle.ad_dir_model.specs.Names.{rdns_of, found};
ghost use Rattle.ad_dir_model.specs.Soundness.{IsSound};

/// In a sound directory each object is found by its name.
pub fn an_object_is_found_by_its_name()
    ensures { (dir : Model) (number : ℕ) → IsSound dir → is_live dir.objects number ≡ true
        → found dir (rdns_of dir number) ≡ Some number }
{}
