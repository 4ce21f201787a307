//! The commands `token`, `who` and `can`: the token of a principal, who has a right on an object, and on which
//! objects a principal has a right, by a store that isn't written.
//!
//! # Example
//!
//! ```text
//! let outcome = cmd_who::who(alloc, &mut site, right, name);
//! ```
//!
//! # Proved
//!
//! Where the store represents a directory, exactly the lines of the rules were emitted, or the line that says why
//! there are none. No slot is written, whatever comes.
//!
//! # The caller owes
//!
//! Nothing: any words, any site, any slots.
//!
//! # Cost
//!
//! Opening is linear in the store; then as `ad_who`.
#![tactic(auto)]

mod asking;

pub use asking::{can, token, who};
