//! Laws of inheritance. Each is the contract of a function that does nothing.

ghost use Rattle.std.specs.Prelude.{◌≡◌, false, [], ◌∷◌};
ghost use Rattle.std.specs.List.{AllPass};
ghost use Rattle.ad_ids.specs.declared.guid.Guid.{Guid as Class};
ghost use Rattle.ad_ids.specs.SidValue.{SidValue};
ghost use Rattle.ad_acl.specs.Entry.{Entry};
ghost use Rattle.ad_sd.specs.declared.parts.Sd.{Sd as SdValue};
ghost use Rattle.ad_inherit.specs.Flags.{inherit_only, inherited, has};
ghost use Rattle.ad_inherit.specs.Copies.{passes, fits, copies};
ghost use Rattle.ad_inherit.specs.Whole.{explicit_part, passed, whole};
ghost use Rattle.ad_inherit.specs.Frozen.{IsFrozen};

/// Inheritance changes nothing of what is explicit.
pub fn the_explicit_part_of_a_whole_is_that_of_its_own()
    ensures { (parent own : SdValue) (class : Class) → explicit_part (whole parent own class)
        ≡ explicit_part own }
{}

/// What was inherited before plays no part: a whole over a whole, from whatever parent and class, is the whole over
/// the own descriptor.
pub fn a_whole_over_a_whole_is_over_the_own()
    ensures { (parent before own : SdValue) (class class_before : Class)
        → whole parent (whole before own class_before) class ≡ whole parent own class }
{}

/// An entry without container inherit has no copies.
pub fn without_container_inherit_nothing_passes()
    ensures { (entry : Entry) (class : Class) (owner group : SidValue) → passes entry ≡ false
        → passed (entry ∷ []) class owner group ≡ [] }
{}

/// Each copy carries the flag of inherited entries.
pub fn copies_carry_the_inherited_flag()
    ensures { (entry : Entry) (class : Class) (owner group : SidValue)
        → AllPass (λ copy. has copy inherited) (copies entry class owner group) }
{}

/// Of an entry for objects of another class no copy is effective: each is inherit-only.
pub fn copies_for_another_class_are_not_effective()
    ensures { (entry : Entry) (class : Class) (owner group : SidValue) → fits entry class ≡ false
        → AllPass (λ copy. has copy inherit_only) (copies entry class owner group) }
{}

/// A descriptor without inherited entries whose lists are both protected is its own whole, whatever the parent.
pub fn a_frozen_descriptor_is_its_own_whole()
    ensures { (parent sd : SdValue) (class : Class) → IsFrozen sd → whole parent sd class ≡ sd }
{}
