//! The command `change`: change records become messages, a frame each.
//!
//! # Example
//!
//! ```text
//! let outcome = cmd_change::change(alloc, &mut source, &mut site);
//! ```
//!
//! # Proved
//!
//! Where the input is change records, exactly one frame for each was emitted, in order; else exactly the line of
//! the first fault. What each other outcome means, and when it comes, is `ChangeDoes`.
//!
//! # The caller owes
//!
//! Nothing: any source, any site.
//!
//! # Cost
//!
//! Linear in the input, which is read whole.
#![tactic(auto)]

mod changing;
mod laws;

pub use changing::change;
pub use laws::each_record_has_its_frame;
