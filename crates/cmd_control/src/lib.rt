//! The commands `control` and `reach`: who can come to control an object, and what an object can come to control, over
//! which steps, by a store that isn't written.
//!
//! # Example
//!
//! ```text
//! let outcome = cmd_control::control(alloc, &mut site, name);
//! ```
//!
//! # Proved
//!
//! Where the store represents a directory, exactly the lines of the rules were emitted, or the line that says why there
//! are none. No slot is written, whatever comes.
//!
//! # The caller owes
//!
//! Nothing: any words, any site, any slots.
//!
//! # Cost
//!
//! Opening is linear in the store; then as `ad_control_dir`.
#![tactic(auto)]

mod asking;

pub use asking::{control, reach};
