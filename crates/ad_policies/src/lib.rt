//! Which group policies count for an account: those that the containers above it link ([MS-GPOL] 2.2.2). The rule is
//! written in `docs/profile/control.md`.
//!
//! # Example
//!
//! ```text
//! let containers = ad_policies::above(alloc, &dir, number)?;    // the nearest first
//! let policies = ad_policies::policies_of(alloc, &dir, number)?;
//! ```
//!
//! # Proved
//!
//! The policies that count are those that the rule says, in its order: of each container from the nearest up the links
//! in the order of its text. What counts for an object depends only on its parent.
//!
//! # The caller owes
//!
//! A live object.
//!
//! # Cost
//!
//! Linear in the texts of the containers above. So take it once for the objects of a container.
#![tactic(auto)]

mod containers;
mod laws;
mod links;
mod policies;
mod values;

pub use containers::{above, blocks};
pub use laws::a_container_s_objects_have_the_same_policies;
pub use policies::policies_of;
pub use values::first_value;
