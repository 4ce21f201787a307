//! The command `diff`: who gains and who loses which right between two stores, neither of which is written.
//!
//! # Example
//!
//! ```text
//! let outcome = cmd_diff::diff(alloc, &mut site, &mut other);
//! ```
//!
//! # Proved
//!
//! Where both stores represent a directory, exactly the lines of the rules were emitted, or the line that says why
//! there are none. Where one doesn't, the line that says which and why was. No slot of either is written, and nothing
//! is emitted by the second site, whatever comes.
//!
//! # The caller owes
//!
//! Nothing: any two sites, any slots, also two over the same slots.
//!
//! # Cost
//!
//! Opening is linear in each store; then as `ad_diff`.
#![tactic(auto)]

mod comparing;

pub use comparing::diff;
