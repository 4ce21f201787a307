//! What Add, Delete, Rename and Modify do ([MS-ADTS] 3.1.1.5): the checks after what they need, and the edits that
//! make the change. The rules are written in `docs/profile/changes.md`; each check is defined beside the others of
//! its operation in `specs/`, and the first that fails is the answer.
//!
//! # Example
//!
//! ```text
//! match ad_change::plan(alloc, &dir, &token, &act)? {
//!     Plan::Refused(code) => ..,
//!     Plan::Edits(edits) => ..,
//! }
//! ```
//!
//! # Proved
//!
//! The answer is the first check that fails, or edits that may be applied one after the other and make the change.
//! Where an operation changes a sound directory, the new one is sound.
//!
//! # The caller owes
//!
//! A sound directory, and an act that is resolved against it for this token, as `ad_needs::verdict` gives it.
//!
//! # Cost
//!
//! Linear in the request and in the objects that change, n log n in their values. A deletion goes over what is
//! below the object and over the holders of links to it.
#![tactic(auto)]

mod adding;
mod by_attr;
mod deleting;
mod depth;
mod holders;
mod laws;
mod leaves;
mod light;
mod modifying;
mod new_object;
mod outcome;
mod owner;
mod planning;
mod renaming;
mod same;
mod subtree;
mod unlinking;
mod writing;

pub use laws::{
    a_delete_keeps_a_directory_sound, a_modify_keeps_a_directory_sound,
    a_rename_keeps_a_directory_sound, an_add_keeps_a_directory_sound,
};
pub use outcome::Plan;
pub use planning::plan;
