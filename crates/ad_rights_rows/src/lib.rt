//! Who is told yes to a question on each object of a directory, as one of few sets and a sign for the object itself.
//!
//! # Example
//!
//! ```text
//! let parties = all_parties(alloc, &dir)?;
//! let places = places(alloc, &parties.members)?;
//! let mut judged = Judged::new(alloc);
//! let ends = put_ends(alloc, &dir, &parties.tokens, &mut judged)?;
//! let own = places.get(&number).copied();
//! let (place, sign) = told_on(alloc, &dir, &parties, &mut judged, ends, own, question, number)?;
//! let yes = tells(judged.sets().at(place), sign, own, member);
//! ```
//!
//! # Proved
//!
//! The set and the sign of an object tell of each token exactly whether it is told yes. The rows are of exactly the
//! objects on which anybody is told yes.
//!
//! # The caller owes
//!
//! Live objects, parties, places and sets that were made by these functions.
//!
//! # Cost
//!
//! A token for each identity; a walk over the entries for each different descriptor with a path and a right; a look for
//! each object. Where an entry is for an object itself, as many tokens are judged by themselves as hold its identifier.
#![tactic(auto)]

mod bases;
mod changes;
mod member;
mod nobody;
mod own;
mod parties;
mod rows;

pub use bases::{Ends, put_ends};
pub use member::{signed, tells, what_a_row_tells_is_allowed};
pub use own::places;
pub use parties::{Parties, all_parties};
pub use rows::{below, told_needed, told_on, told_rows};
