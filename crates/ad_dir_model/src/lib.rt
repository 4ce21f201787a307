//! The directory as plain lists: what it is, when it is sound, and what each change makes of it. The rules are
//! written in `docs/profile/directory.md`, `propagation.md` and `protection.md`, and defined in `specs/`. There is
//! no code here: the laws of the definitions are the contracts of functions that do nothing.
//!
//! # Example
//!
//! ```text
//! // In a caller's proof: what a step makes of a sound directory is sound.
//! ad_dir_model::a_step_keeps_a_directory_sound();
//! ```
//!
//! # Proved
//!
//! Each change that may be made keeps a sound directory sound: writes of values and of descriptors, additions,
//! deletions, moves, renames, steps and protection runs. A step lowers the work that is left, which is bounded, so
//! the pending list empties; and where it is empty each descriptor is the one that is recomputed from the root. The
//! edits that are defined for a change, applied in order, make it.
//!
//! # The caller owes
//!
//! What each law takes as its premise, in `specs/Conditions.antt`: a sound directory, and that the change may be
//! made.
//!
//! # Cost
//!
//! Nothing runs.
#![tactic(auto)]

mod changes;
mod edits;
mod loading;
mod propagation;
mod protection;
mod whole;

pub use changes::{
    a_deletion_keeps_a_directory_sound, a_descriptor_that_is_settled_keeps_a_directory_sound,
    a_move_keeps_a_directory_sound, a_move_keeps_the_tree, a_rename_keeps_a_directory_sound,
    a_write_of_a_descriptor_keeps_a_directory_sound, a_write_of_values_keeps_a_directory_sound,
    an_addition_keeps_a_directory_sound,
};
pub use edits::{
    the_edits_of_a_deletion_make_it, the_edits_of_a_protection_run_make_it,
    the_edits_of_a_step_make_it, the_edits_of_a_write_make_it, the_edits_of_an_addition_make_it,
};
pub use loading::what_is_recomputed_from_the_root_is_sound;
pub use propagation::{
    a_step_keeps_a_directory_sound, a_step_lowers_the_work,
    an_empty_queue_means_recomputed_from_the_root, the_queue_empties_once, the_work_is_bounded,
};
pub use protection::{
    a_protection_run_gives_the_frozen_descriptor, a_protection_run_keeps_a_directory_sound,
    a_second_protection_run_changes_nothing, the_protected_objects_are_the_least_set,
};
pub use whole::an_object_is_found_by_its_name;
