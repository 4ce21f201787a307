//! The text of effective.

ghost use Rattle.std.specs.Prelude.{ℕ};
ghost use Rattle.ad_ids.specs.declared.token.Token.{Token};
ghost use Rattle.ad_schema.specs.Sound.{MakeSchema};
ghost use Rattle.ad_dir_model.specs.Directory.{Directory};
ghost use Rattle.ad_dsacls.specs.Effective.{effective_text};
ghost use Rattle.ad_text_laws.specs.Words.{IsOfWords};

/// The text of effective is of lines of words, which read back.
pub fn the_text_of_effective_is_of_words()
    ensures { (dir : Directory) (token : Token) (number : ℕ) → MakeSchema dir.schema → IsOfWords
        (effective_text dir token number) }
{}
