//! The law of soundness, as the contract of a function that does nothing.

ghost use Rattle.std.specs.Prelude.{◌≡◌, ◌≤◌, ℕ, length, true};
ghost use Rattle.ad_dir_model.specs.Objects.{is_live, parent_at, sd_at};
ghost use Rattle.ad_dir_model.specs.Soundness.{IsSound};
ghost use Rattle.ad_dir_model.specs.Tree.{root};
ghost use Rattle.ad_schema.specs.Attributes.{attrs_of};
ghost use Rattle.ad_schema.specs.Classes.{classes_of};
ghost use Rattle.ad_gen_laws.specs.Sound.{sample_directory, pending_sample, child, child_sd};

use crate::laws::{the_directory_of_the_sample, the_story_of_the_sample};
use ad_value::what_is_shown_reads_back;

/// The sample's directory is sound, of each size from one unit to 1,000. So is the same directory with the root
/// pending.
pub fn the_sample_is_sound()
    ensures sound { (n : ℕ) → 1 ≤ n → n ≤ 1000 → IsSound (sample_directory n) }
    ensures pending { (n : ℕ) → 1 ≤ n → n ≤ 1000 → IsSound (pending_sample n) }
    // It has a schema,
    ensures attributes { (n : ℕ) → length (attrs_of (sample_directory n).schema) ≡ 19 }
    ensures classes { (n : ℕ) → length (classes_of (sample_directory n).schema) ≡ 7 }
    // a root with an object below it,
    ensures root { (n : ℕ) → is_live (sample_directory n).objects root ≡ true }
    ensures below { (n : ℕ) → parent_at (sample_directory n).objects child ≡ root }
    // and this object has one entry of its own, and two that it inherits.
    ensures inherits { (n : ℕ) → sd_at (sample_directory n).objects child ≡ child_sd }
{
    what_is_shown_reads_back();
    the_story_of_the_sample();
    the_directory_of_the_sample();
}
