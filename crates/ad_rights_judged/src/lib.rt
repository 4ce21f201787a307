//! Sets of tokens that are granted rights on the objects of a directory, each judged once.
//!
//! Objects with one descriptor have one set, as long as their own identifiers are left out. Where an entry is for the
//! object itself (S-1-5-10), only the tokens that hold its identifier can be granted otherwise, and these are few.
//!
//! # Example
//!
//! ```text
//! let see = judged.base(alloc, &dir, &tokens, parent, LIST_CHILDREN, &Path::empty())?;
//! let write = judged.base(alloc, &dir, &tokens, object, WRITE_PROPERTY, &path)?;
//! let place = judged.join(alloc, true, see, write)?;
//! ```
//!
//! # Proved
//!
//! The set at the place of an object, a path and a right has exactly the tokens that would be granted the right if the
//! object had no identifier. Any token that doesn't hold the object's identifier, or any token where no entry is for
//! the object itself, is granted exactly that.
//!
//! # The caller owes
//!
//! Tokens that only allow, as the tokens that a directory gives are, and live objects.
//!
//! # Cost
//!
//! A set of `ad_rights` for each different descriptor with a path and a right, and one join for each two different sets.
#![tactic(auto)]

mod bases;
mod joins;
mod judged;
mod own;
mod tokens;

pub use judged::Judged;
pub use own::{own_places, the_own_identifier_counts_at_its_places};
pub use tokens::Tokens;
