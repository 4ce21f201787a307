//! Laws of the definitions, as contracts of functions that do nothing.

ghost use Rattle.std.specs.Prelude.{◌≡◌, ℕ, List, None};
ghost use Rattle.ad_ldif.specs.Changes.{changes};
ghost use Rattle.cmd_change.specs.Carried.{CarriesEach};
ghost use Rattle.cmd_change.specs.Change.{Asks};

/// An input that isn't refused has change records to its end, and its answer is one frame for each record, in
/// order: the nth has the record's message with the number n.
pub fn each_record_has_its_frame()
    ensures whole { (input frames : List ℕ) → Asks input frames → (changes input).stop ≡ None }
    ensures frames { (input frames : List ℕ) → Asks input frames
        → CarriesEach 1 (changes input).changes frames }
{}
