//! The nodes of a directory: its live objects, and the identifiers that count without a principal; which of them has
//! which token; and what an edge that is drawn to an object is made of.
//!
//! # Example
//!
//! ```text
//! let (nodes, ground) = ad_control_nodes::ground_of(alloc, &dir)?;
//! let to = ground.objects.get(&number).copied();
//! ```
//!
//! # Proved
//!
//! Each node is there once, in the order in which nodes are told; of each token its node is known, and all nodes that
//! have one are there. What leads by questions, by descriptors that are values, and by where a node stands is together
//! exactly what the edges are.
//!
//! # The caller owes
//!
//! Nothing for the nodes; live objects, of which it is asked whether a kind leads to them.
//!
//! # Cost
//!
//! That of all identities with their tokens, and a few words for each object and each token.
#![tactic(auto)]

mod ground;
mod kinds;
mod laws;
mod nodes;
mod places;

pub use ground::{Ground, ground_of};
pub use kinds::is_of;
pub use laws::the_parts_are_all_edges;
