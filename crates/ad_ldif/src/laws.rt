//! Laws of the definitions, as contracts of functions that do nothing.

ghost use Rattle.std.specs.Prelude.{◌≤◌, ℕ, List, length};
ghost use Rattle.std.specs.List.{AllByRecursion};
ghost use Rattle.ad_ldif.specs.Changes.{changes};
ghost use Rattle.ad_ldif.specs.Ranges.{HasItemOps};

/// What is true of the change records of each text: an item's op is at most 2, and there are no more records than
/// bytes.
pub fn what_changes_have()
    ensures ops { (text : List ℕ) → AllByRecursion HasItemOps (changes text).changes }
    ensures few { (text : List ℕ) → length (changes text).changes ≤ length text }
{}
