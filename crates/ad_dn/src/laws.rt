//! Laws of names. Each is the contract of a function that does nothing.

ghost use Rattle.std.specs.Prelude.{◌≡◌, ◌↔◌, List, ℕ, Some, true};
ghost use Rattle.ad_dn.specs.declared.rdn.Dn.{Dn as Name};
ghost use Rattle.ad_dn.specs.Value.{AreRdns};
ghost use Rattle.ad_dn.specs.Text.{dn_text, has_no_control};
ghost use Rattle.ad_dn.specs.Grammar.{SpellsDn};
ghost use Rattle.ad_dn.specs.Fold.{IsSameDn};
ghost use Rattle.ad_dn.specs.NameKey.{name_key};
ghost use Rattle.ad_dn.specs.Reading.{dn_of};

/// The text that is written of a name is one of its texts, so it reads back as the same name.
pub fn a_name_is_spelled_by_its_text()
    ensures { (dn : Name) → AreRdns dn.rdns → SpellsDn dn (dn_text dn) }
{}

/// The text that is written of a name is one line: no control of ASCII stands in it.
pub fn a_written_name_is_one_line()
    ensures { (dn : Name) → AreRdns dn.rdns → has_no_control (dn_text dn) ≡ true }
{}

/// A text is one name's at most.
pub fn a_text_spells_one_name()
    ensures { (a b : Name) (text : List ℕ) → SpellsDn a text → SpellsDn b text → a ≡ b }
{}

/// What a text encodes is a name: its types and values have their form.
pub fn a_spelled_name_has_its_form()
    ensures { (dn : Name) (text : List ℕ) → SpellsDn dn text → AreRdns dn.rdns }
{}

/// The name that a text encodes, as a function: it gives that name where there is one, and nothing where there is
/// none.
pub fn what_a_text_spells()
    ensures { (dn : Name) (text : List ℕ) → (dn_of text ≡ Some dn) ↔ SpellsDn dn text }
{}

/// Names have one key exactly where they are the same.
pub fn names_of_one_key()
    ensures { (a b : Name) → AreRdns a.rdns → AreRdns b.rdns → (name_key a ≡ name_key b)
        ↔ IsSameDn a b }
{}
