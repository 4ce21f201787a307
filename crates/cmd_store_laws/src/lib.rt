//! A store in memory from its beginning over a crash to what is served after it: that the premises of what is
//! claimed of `load` and `serve` are met together. The laws are the contracts of functions that run these.
//!
//! # Example
//!
//! ```text
//! let run = cmd_store_laws::served_across_a_crash(alloc, &text, &frames, 12, 0, &more)?;
//! ```
//!
//! # Proved
//!
//! Of every text, input and moment: a directory that was loaded, a crash at that moment while frames were served, and
//! frames that were served over what it left. No premise is asked for.
//!
//! # The caller owes
//!
//! Nothing.
//!
//! # Cost
//!
//! What the commands cost, over slots in memory that keep a record of all calls.
#![tactic(auto)]

mod steps;
mod story;

pub use steps::{loaded, reopened, served};
pub use story::{Run, Unrun, served_across_a_crash};
