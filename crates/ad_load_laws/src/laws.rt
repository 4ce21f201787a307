//! The law of loading, as the contract of a function that does nothing.

ghost use Rattle.std.specs.Prelude.{◌≡◌, ℕ, List, [], true, Ok};
ghost use Rattle.ad_bytes.specs.Reading.{IsBytes};
ghost use Rattle.ad_dir_model.specs.Directory.{Directory};
ghost use Rattle.ad_dir_model.specs.Inheritance.{scratch};
ghost use Rattle.ad_dir_model.specs.Objects.{is_live, sd_at};
ghost use Rattle.ad_dir_model.specs.Soundness.{IsSound};
ghost use Rattle.ad_load.specs.Loaded.{loaded};

use ad_value::what_is_shown_reads_back;

/// The directory of a text is sound, nothing is pending in it, and each object has the descriptor that is computed
/// from the root. Nothing is asked of the text but that it is bytes.
pub fn what_is_loaded_is_sound()
    ensures sound { (text : List ℕ) (dir : Directory) → IsBytes text → loaded text ≡ Ok dir
        → IsSound dir }
    ensures empty { (text : List ℕ) (dir : Directory) → loaded text ≡ Ok dir → dir.pending ≡ [] }
    ensures scratch { (text : List ℕ) (dir : Directory) (number : ℕ) → IsBytes text → loaded text
        ≡ Ok dir
        → is_live dir.objects number ≡ true → sd_at dir.objects number ≡ scratch dir number }
{
    what_is_shown_reads_back();
}
