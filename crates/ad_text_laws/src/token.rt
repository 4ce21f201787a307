//! The text of a token.

ghost use Rattle.std.specs.Prelude.{◌≡◌, Some};
ghost use Rattle.ad_ids.specs.declared.token.Token.{Token};
ghost use Rattle.ad_who.specs.Lines.{token_text};
ghost use Rattle.ad_text_laws.specs.Lines.{facts_of};
ghost use Rattle.ad_text_laws.specs.Tokens.{HasForm, part_of, parts_of};

/// The lines of a token give back its parts.
pub fn the_lines_of_a_token_read_back()
    ensures { (token : Token) → HasForm token → facts_of part_of (token_text token)
        ≡ Some (parts_of token) }
{}
