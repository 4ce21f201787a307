//! An entry of the pending list as a value.

/// A parent whose children are to be gone over.
#[derive(Clone, Copy, Debug, PartialEq, Eq)]
pub struct Pending {
    /// The number of the parent.
    pub parent: u32,
    /// The number of the child that was done last, and 0 before the first. Children with greater numbers are still to
    /// be done.
    pub cursor: u32,
}
