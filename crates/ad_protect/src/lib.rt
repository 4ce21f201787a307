//! Protection: the edits of one run, which gives each protected object the descriptor of AdminSDHolder ([MS-ADTS]
//! 3.1.1.6.1). The rules are written in `docs/profile/protection.md`.
//!
//! # Example
//!
//! ```text
//! let (edits, changed, protected) = ad_protect::run_edits(alloc, &dir)?;
//! ```
//!
//! # Proved
//!
//! The edits may be applied one after the other and make the directory after a run, in which each protected object
//! has the frozen descriptor of AdminSDHolder and adminCount, and no other object is touched. Both numbers are
//! those of the definition. Which objects are protected is told by itself too.
//!
//! # The caller owes
//!
//! A sound directory.
//!
//! # Cost
//!
//! Linear in the links of groups that are reached and in the objects that change.
#![tactic(auto)]

mod adding;
mod frozen;
mod given;
mod group;
mod listing;
mod mark;
mod marks;
mod primary;
mod puts;
mod run;
mod seeds;
mod spread;
mod taking;

pub use listing::protected;
pub use run::run_edits;
