//! Laws of the texts. Each is the contract of a function that does nothing.

ghost use Rattle.std.specs.Prelude.{◌≡◌, ◌↔◌, ℕ, List, Option, Ok};
ghost use Rattle.ad_ids.specs.SidValue.{SidValue};
ghost use Rattle.ad_sd.specs.declared.parts.SdParts.{SdParts};
ghost use Rattle.ad_sddl.specs.Grammar.{SpellsSddl};
ghost use Rattle.ad_sddl.specs.Reading.{read_of};
ghost use Rattle.ad_sddl.specs.Canonical.{canonical, AreParts, IsEmpty};

/// The text that is written of parts is one of their texts, so it reads back as the same parts, whichever the domain.
pub fn parts_are_spelled_by_their_text()
    ensures spelled { (domain : Option SidValue) (parts : SdParts) → AreParts parts
        → (IsEmpty parts → ⊥) → SpellsSddl domain parts (canonical parts) }
    ensures read { (domain : Option SidValue) (parts : SdParts) → AreParts parts
        → (IsEmpty parts → ⊥) → read_of domain (canonical parts) ≡ Ok parts }
{}

/// The parts that a text encodes, as a function: it gives these where there are some, and else a fault. So a text
/// that encodes some parts has no fault.
pub fn what_a_text_spells()
    ensures { (domain : Option SidValue) (parts : SdParts) (text : List ℕ)
        → (read_of domain text ≡ Ok parts) ↔ SpellsSddl domain parts text }
{}
