//! Laws of what gives tokens: the five attributes that they depend on, and the changes that leave these. No code: each
//! law is the contract of a function that does nothing.
//!
//! # Example
//!
//! ```text
//! // In a caller's proof: a rename leaves each token.
//! ad_principal_laws::a_rename_leaves_each_token();
//! ```
//!
//! # Proved
//!
//! Directories that agree in objectSid, primaryGroupID, member, groupType and sIDHistory of each object give the same
//! tokens. A rename, a move, steps, a protection run, and a Modify that names none of these leave them, and so each
//! token: no account gains a group but by an addition, a deletion, or a Modify that names one of them. And a Modify was
//! granted the write of what it names.
//!
//! # The caller owes
//!
//! What each law takes as its premise: objects by rising numbers, or a live object.
//!
//! # Cost
//!
//! Nothing runs.
#![tactic(auto)]

mod agreeing;
mod answering;
mod keeping;
mod writing;

pub use agreeing::{
    directories_that_agree_give_the_same_tokens, directories_that_agree_refuse_the_same_tokens,
};
pub use answering::other_frames_leave_each_token;
pub use keeping::{
    a_modify_of_other_attributes_leaves_each_token, a_protection_run_leaves_each_token,
    a_rename_leaves_each_token, steps_leave_each_token,
};
pub use writing::what_a_modify_changes_it_may_write;
