//! The command `grants`: lines after dsacls become frames of messages, by a store that isn't written.
//!
//! # Example
//!
//! ```text
//! let outcome = cmd_grants::grants(alloc, &mut source, &mut site);
//! ```
//!
//! # Proved
//!
//! Where each line can be taken, exactly the frames of the messages were emitted; else exactly the line of the
//! first fault. No slot is written, whatever comes. What each other outcome means is `GrantsDoes`.
//!
//! # The caller owes
//!
//! Nothing: any source, any site, any slots.
//!
//! # Cost
//!
//! Opening is linear in the store, and each line in its object's list, twice: all lines are judged before the first
//! frame is emitted. What is kept is the text, one list for each object that it names, and at most 17 MiB of frames.
#![tactic(auto)]

mod frames;
mod giving;
mod judging;
mod lines;
mod sending;

pub use giving::grants;
