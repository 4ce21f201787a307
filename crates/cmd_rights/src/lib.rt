//! The command `rights`: who is told yes to a question on which objects, all at once, by a store that isn't written.
//!
//! # Example
//!
//! ```text
//! let outcome = cmd_rights::rights(alloc, &mut site, right, base);
//! ```
//!
//! # Proved
//!
//! Where the store represents a directory, exactly the lines of the rules were emitted, or the line that says why there
//! are none. No slot is written, whatever comes.
//!
//! # The caller owes
//!
//! Nothing: any words, any site, any slots.
//!
//! # Cost
//!
//! Opening is linear in the store; then as `ad_rights_dir`.
#![tactic(auto)]

mod asking;

pub use asking::rights;
