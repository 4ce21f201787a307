//! What a filter of a search says of an object: true, false, or undefined (RFC 4511 4.5.1.7). The rule is in
//! `specs/Filtering.antt`, over what may be read of the object's attributes.
//!
//! # Example
//!
//! ```text
//! let truth = ad_filter::truth(alloc, &filter, &view)?;
//! ```
//!
//! # Proved
//!
//! The answer is what the rule says of the filter over what an implementation of `Readable` tells, so nothing else
//! has a part in it. What an And, an Or and a Not say follows from their parts, as in the standard, for every
//! filter.
//!
//! # The caller owes
//!
//! An implementation of `Readable`.
//!
//! # Cost
//!
//! Each attribute that the filter names is asked for once, and its values are sorted where a filter asks for many
//! of them; an item is a search by halving then.
#![tactic(auto)]

mod comparison;
mod judging;
mod laws;
mod outcome;
mod readable;
mod value_cache;

pub use comparison::{has_equal, value_of};
pub use judging::truth;
pub use laws::{not_of_all_is_some_of_not, what_all_of_filters_says, what_some_of_filters_says};
pub use outcome::Truth;
pub use readable::Readable;
