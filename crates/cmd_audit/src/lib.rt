//! The command `audit`: frames in, and what their accesses leave in the security log out.
//!
//! The session is run again on a directory in memory, which begins as the one that the store represents. What each
//! frame tries is judged by the descriptors from before it. The rules are written in `docs/profile/audit.md`, and
//! defined in `specs/Log.antt`.
//!
//! # Example
//!
//! ```text
//! let outcome = cmd_audit::audit(alloc, &mut source, &mut site);
//! ```
//!
//! # Proved
//!
//! Exactly the lines of the events of the frames were emitted, in order, whole or up to the first fault, and no
//! slot is written. A list that asks for nothing leaves no line. What each outcome means is `AuditDoes`.
//!
//! # The caller owes
//!
//! Nothing: any source, any site, any slots.
//!
//! # Cost
//!
//! As `serve`, with a judgement of each right that was tried and a line for each event.
#![tactic(auto)]

mod auditing;
mod events;
mod frames;
mod laws;
mod messages;
mod null_site;
mod replay;

pub use auditing::audit;
pub use laws::{each_frame_is_judged_before_it_is_served, what_asks_for_nothing_audits_nothing};
pub use null_site::NullSite;
