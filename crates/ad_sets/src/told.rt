//! What is told of sets and objects, and the law that it gives back who is granted.

ghost use Rattle.std.specs.Prelude.{◌≡◌, ◌==◌, ℕ, Bool, List, Option, Some, false, slice_get};
ghost use Rattle.std.specs.List.{AllByRecursion};
ghost use Rattle.ad_sets.specs.Told.{RowValue, stands_in, told_at, row_facts, AreApart, reads};
ghost use Rattle.ad_sets.specs.Rows.{row_of};

/// How the set of an object stands to the one that is told.
#[derive(Clone, Copy, Debug, PartialEq, Eq)]
pub enum Sign {
    /// It is that set.
    Same,
    /// It is that set with the object itself.
    With,
    /// It is that set without the object itself.
    Without,
}

/// One line of what is told.
#[derive(Clone, Copy, Debug, PartialEq, Eq)]
pub enum Fact {
    /// In the set of a number stands the identity at a place.
    In(usize, usize),
    /// Exactly those of the set of a number are granted on an object.
    On(usize, Sign, u32),
}

/// What is told of objects, each another one, gives back who is granted on each, and nobody on one that isn't told.
pub fn what_is_told_gives_who_is_granted()
    ensures told { (rows : List RowValue) (place member : ℕ) (row : RowValue) → AreApart rows → slice_get
        rows place ≡ Some row → reads (row_facts rows) row.object row.own member ≡ told_at row member }
    ensures untold { (rows : List RowValue) (object member : ℕ) (own : Option ℕ) → AllByRecursion
        (λ (r : RowValue). (r.object == object) ≡ false) rows → reads (row_facts rows) object own member
        ≡ false }
{}

/// An object's row tells of each place what the whole has there.
pub fn a_row_tells_the_whole()
    ensures { (object member : ℕ) (own : Option ℕ) (base whole : List Bool)
        → told_at (row_of object own base whole) member ≡ stands_in whole member }
{}
