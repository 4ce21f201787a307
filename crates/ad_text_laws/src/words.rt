//! Texts whose lines are words.

ghost use Rattle.std.specs.Prelude.{◌≡◌, ℕ, List, Some};
ghost use Rattle.std.specs.List.{AllByRecursion};
ghost use Rattle.ad_text_laws.specs.Lines.{facts_of};
ghost use Rattle.ad_text_laws.specs.Words.{AreWords, line_words, words_text};

/// Lines of words give back their words.
pub fn lines_of_words_read_back()
    ensures { (lines : List (List (List ℕ))) → AllByRecursion AreWords lines → facts_of line_words
        (words_text lines)
        ≡ Some lines }
{}
