//! Lines and words.

ghost use Rattle.std.specs.Prelude.{◌≡◌, ◌++◌, ◌∷◌, ℕ, List, Some, true, option_map};
ghost use Rattle.ad_text_laws.specs.Lines.{is_line, lines_of};

/// A line that ends is the first line of a text, whatever stands after it.
pub fn a_text_gives_back_its_lines()
    ensures { (line rest : List ℕ) → is_line line ≡ true → lines_of (line ++ 10 ∷ rest)
        ≡ option_map (λ (lines : List (List ℕ)). line ∷ lines) (lines_of rest) }
{}
