//! Who may change a directory: the checks of Add, Delete, Rename and Modify up to what the operation needs
//! ([MS-ADTS] 3.1.1.5). The rules are written in `docs/profile/changes.md`; each check is defined beside the others
//! of its operation in `ad_needs_rules`, and the first that fails is the answer. What an operation tries stands in
//! `docs/profile/tries.md`.
//!
//! # Example
//!
//! ```text
//! match ad_needs::verdict(alloc, &dir, &token, &message.op, &settings)? {
//!     Verdict::Granted(act) => ..,
//!     Verdict::Refused(code) => ..,
//!     Verdict::Hidden(matched) => ..,
//!     Verdict::Missing(need) => ..,
//! }
//! let tried = ad_needs::trace(alloc, &dir, &token, &message.op, &settings)?;
//! ```
//!
//! # Proved
//!
//! The verdict is exactly that of the first check in the list that fails, with its code, the name or the required
//! right that is told; or else what is asked for, resolved against the directory. What is tried is what the definition
//! says: nothing where a check before the requirements fails, and else of each requirement its first granted
//! alternative, and the first alternative of the one that is missing. Where the verdict tells a required right, it is
//! the last that was tried. Only want of memory is another answer.
//!
//! # The caller owes
//!
//! Nothing: any operation, any token, any directory.
//!
//! # Cost
//!
//! Linear in the request, with a sweep over a descriptor for each right that is asked for; a trace asks twice.
#![tactic(auto)]

mod adding;
mod decoding;
mod deleting;
mod first_named;
mod item_checks;
mod items;
mod judging;
mod laws;
mod modify_needs;
mod modifying;
mod renaming;
mod resolving;
mod sent;
mod tracing;
mod trying;

pub use ad_needs_rules::{Need, Verdict, Want, text};
pub use judging::verdict;
pub use laws::{a_missing_need_names_live_objects, a_verdict_tells_the_last_that_is_tried};
pub use tracing::trace;
