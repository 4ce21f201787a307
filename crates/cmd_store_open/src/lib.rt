//! How the commands over a store begin and end: what a store represents as one begins, how a command ends where it
//! represents no directory or the site fails, and how one that reads frames ends.
//!
//! # Example
//!
//! ```text
//! match DirStore::resume(alloc, &mut site) {
//!     Ok(opened) => ..,
//!     Err(fault) => cmd_store_open::refuse(alloc, &mut site, fault),
//! }
//! ```
//!
//! # Proved
//!
//! Where no store was opened the line that says why is emitted, and no slot is written (`Refused`, `IsNoStore`). After
//! `make_ready` each crash leaves the directory that was opened, and before its sync what it could leave as the call
//! began (`IsReady`).
//!
//! # The caller owes
//!
//! For `make_ready` a store that was just opened over this site, and for `outcome_of_fault` one that wasn't poisoned;
//! else nothing.
//!
//! # Cost
//!
//! Two syncs at most, and for a store of version 1 a snapshot, which is linear in the directory.
#![tactic(auto)]

mod answered;
mod ends;
mod failed;
mod ready;
mod store_lines;
mod unopened;

pub use ad_engine_store::DirStore;
pub use answered::outcome_of;
pub use ends::{MAX_FRAMES, at_last, of_frame, outcome_of_open};
pub use failed::outcome_of_fault;
pub use ready::make_ready;
pub use store_lines::TAKEN;
pub use unopened::{refuse, refuse_as};
