//! Laws of what is told, as contracts of functions that do nothing.

ghost use Rattle.std.specs.Prelude.{◌≡◌, ℕ, List, [], true, false};
ghost use Rattle.ad_dir_model.specs.Directory.{Directory};
ghost use Rattle.ad_dir_model.specs.Soundness.{IsSound};
ghost use Rattle.ad_diff.specs.Answers.{DiffTold};

/// No differences are both told and refused: where there is an answer, no line says that there is none.
pub fn no_difference_is_both_told_and_refused()
    ensures { (before after : Directory) (answer line : List ℕ)
        → DiffTold before after true answer → DiffTold before after false line → ⊥ }
{}

/// From a sound directory to itself no line is told.
pub fn equal_directories_have_no_line()
    ensures { (dir : Directory) (text : List ℕ) → IsSound dir → DiffTold dir dir true text → text
        ≡ [] }
{}
