//! Which accesses leave an event in the security log, and the line of an event.
//!
//! The rule is written in `docs/profile/audit.md`, and defined in `specs/`, for one entry of the SACL and
//! then by recursion over the list.
//!
//! # Example
//!
//! ```text
//! let at = ad_audit::audited(view, &token, self_sid, path.guids(), READ_PROPERTY, true);
//! let line = ad_audit::line(alloc, &event)?;
//! ```
//!
//! # Proved
//!
//! The place of the first entry that asks for the event, and none exactly where no entry does. The line is that of
//! the definition. A list that asks for nothing leaves no event, whatever is tried.
//!
//! # The caller owes
//!
//! Nothing.
//!
//! # Cost
//!
//! Linear in the entries of the SACL, without memory; a line is linear in its text.
#![tactic(auto)]

mod event;
mod judging;
mod laws;
mod lines;

pub use event::Event;
pub use judging::audited;
pub use laws::a_list_that_asks_for_nothing_audits_nothing;
pub use lines::line;
