//! A law of the definitions, as the contract of a function that does nothing.

ghost use Rattle.std.specs.Prelude.{ℕ, ◌<◌, List, length};
ghost use Rattle.ad_schema_classes.specs.Chains.{set_of, IsLeastSet};

/// The set of a class is the least that has the class and, with each class, those that stand next to it: its
/// superclass and its auxiliary classes.
pub fn a_class_set_is_the_least()
    ensures { (next : List (List ℕ)) (class : ℕ) → class < length next
        → IsLeastSet next class (set_of next class) }
{}
