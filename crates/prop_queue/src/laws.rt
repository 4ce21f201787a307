//! Laws of the pending list. Each is the contract of a function that does nothing.

ghost use Rattle.std.specs.Prelude.{◌≡◌, ℕ, List, drop};
ghost use Rattle.prop_queue.specs.declared.pending.Pending.{Pending as Entry};
ghost use Rattle.prop_queue.specs.Pending.{AreDistinct, marked, advanced, without};

/// Whatever is done to the list, no parent is pending twice.
pub fn parents_stay_distinct()
    ensures marking { (queue : List Entry) (parent : ℕ) → AreDistinct queue
        → AreDistinct (marked parent queue) }
    ensures advancing { (queue : List Entry) (child : ℕ) → AreDistinct queue
        → AreDistinct (advanced child queue) }
    ensures dropping { (queue : List Entry) → AreDistinct queue → AreDistinct (drop 1 queue) }
    ensures removing { (queue : List Entry) (parent : ℕ) → AreDistinct queue
        → AreDistinct (without parent queue) }
{}
