//! Which rights differ between two directories, and why: the causes first; then for each principal and each object that
//! stand in both by their name, what the principal gains and loses on the object, by the tokens and the descriptors of
//! each directory.
//!
//! The rules are written in `docs/profile/diff.md`, and defined in `specs/` apart from the code.
//!
//! # Example
//!
//! ```text
//! let told = ad_diff::diff(alloc, &before, &after)?;
//! if told.answered && told.text.is_empty() { .. nothing differs .. }
//! ```
//!
//! # Proved
//!
//! The lines are those of the rules. The causes stand first. Principals and objects stand in groups; on each object each
//! principal gains and loses exactly what the lines of their groups say. From a sound directory to itself there are none.
//!
//! # The caller owes
//!
//! Nothing: any two directories.
//!
//! # Cost
//!
//! Objects of one class and one descriptor in each directory are a family, and principals that hold the same of what
//! the descriptors name are a kind. Each kind is judged once on each family, as if objects had no identifiers of their
//! own; and on an object for which an entry asks (S-1-5-10) those principals are judged that hold its identifier. So
//! with f families, k kinds and h pairs of such an object and a holder f times k plus h judgements, each a sweep for
//! the tree of attributes, and one for each right and class that is asked for. Nothing is judged where nothing can
//! differ: the schemas are equal, so are the principal's tokens, and the object has the class, the descriptor and the
//! identifier in both. Besides, each principal's lines are looked up for each group of objects, to put it into a group.
#![tactic(auto)]

mod alike;
mod bases;
mod columns;
mod context;
mod families;
mod grouping;
mod holders;
mod kinds;
mod laws;
mod listing;
mod numbering;
mod pieces;
mod refusing;
mod rows;
mod table;
mod telling;

pub use ad_both::Both;
pub use laws::{equal_directories_have_no_line, no_difference_is_both_told_and_refused};
pub use numbering::Grouped;
pub use telling::{Answer, diff};
