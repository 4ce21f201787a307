//! Who can come to control what in a directory, as lines: all edges are drawn, and the shortest chains to a node are
//! told, or from it. The rules are written in `docs/profile/control.md`.
//!
//! # Example
//!
//! ```text
//! let told = ad_control_dir::control(alloc, &dir, "CN=Domain Admins,CN=Users,DC=corp,DC=example")?;
//! let told = ad_control_dir::reach(alloc, &dir, "S-1-1-0")?;
//! ```
//!
//! # Proved
//!
//! The graph has exactly the edges of the rules. The text has exactly the lines of the rules, for the shortest chains.
//!
//! # The caller owes
//!
//! A sound directory.
//!
//! # Cost
//!
//! A token for each identity; a walk over the entries for each different descriptor and each right that the kinds ask
//! for; a few arcs for each object, and for each link of a group or a policy. Then linear in nodes, sets and arcs.
#![tactic(auto)]

mod drawing;
mod graph;
mod named;
mod standing;
mod told;

pub use graph::graph_of;
pub use told::{Answer, control, reach};
