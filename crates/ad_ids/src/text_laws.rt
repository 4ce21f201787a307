//! Laws of the texts. Each is the contract of a function that does nothing.

ghost use Rattle.std.specs.Prelude.{◌≡◌, ◌↔◌, ℕ, List, drop, Some, None};
ghost use Rattle.ad_bytes.specs.Prefix.{IsLongestPrefix, HasNoPrefix};
ghost use Rattle.ad_ids.specs.SidFront.{longest_front, sid_of_text};
ghost use Rattle.ad_ids.specs.SidValue.{SidValue};
ghost use Rattle.ad_ids.specs.Sid.{IsSid};
ghost use Rattle.ad_ids.specs.SidText.{sid_text};
ghost use Rattle.ad_ids.specs.SidGrammar.{SpellsSidText};

/// The text that is written of an identifier is one of its texts, so it reads back as the same identifier.
pub fn an_identifier_is_spelled_by_its_text()
    ensures { (sid : SidValue) → IsSid sid → SpellsSidText sid (sid_text sid) }
{}

/// The function that says which prefix of a text is the longest that encodes an identifier says it of the grammar.
pub fn the_longest_front_is_the_longest_prefix()
    ensures some { (sid : SidValue) (text rest : List ℕ) → longest_front text ≡ Some (sid, rest)
        → (len : ℕ) × IsLongestPrefix SpellsSidText sid len text × (rest ≡ drop len text) }
    ensures none { (text : List ℕ) → longest_front text ≡ None → HasNoPrefix SpellsSidText text }
{}

/// The identifier that a text encodes, as a function: it gives that identifier where there is one, and nothing
/// where there is none.
pub fn what_a_sid_s_text_spells()
    ensures { (sid : SidValue) (text : List ℕ) → (sid_of_text text ≡ Some sid)
        ↔ SpellsSidText sid text }
{}
