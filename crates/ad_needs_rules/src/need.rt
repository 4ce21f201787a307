//! A required right and its alternatives as values.

use ad_bytes::List;
use ad_ids::Guid;

/// A right on an object, which would do.
#[derive(Drop)]
pub struct Want {
    /// The object's number.
    pub object: u32,
    /// One right, as a mask.
    pub right: u32,
    /// The last GUID of the path on which the right is needed. None where the right is needed on the object as a
    /// whole.
    pub guid: Option<Guid>,
}

/// What an operation needs: one of these, of which there is at least one.
#[derive(Drop)]
pub struct Need {
    pub alternatives: List<Want>,
}
