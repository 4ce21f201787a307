//! Who can come to control an object, over how many steps, and by which: chains of what one may do to another. The
//! kinds of steps are the table of `docs/profile/control.md`.
//!
//! # Example
//!
//! ```text
//! let ways = controlling(alloc, &graph, place)?;   // of each node, its shortest chain to the node at the place
//! let ways = reached(alloc, &graph, place)?;       // of each node, the shortest chain to it from that node
//! ```
//!
//! # Proved
//!
//! Each step that is told is an edge, and the steps lead to the object. No chain is shorter, and who isn't told has
//! none. What one node comes to control is told alike.
//!
//! # The caller owes
//!
//! A graph of the directory: its nodes, sets of them, and from which set which edges lead where.
//!
//! # Cost
//!
//! Linear in the nodes, the members of the sets and the arcs.
#![tactic(auto)]

mod laws;
mod telling;

pub use laws::{
    a_graph_that_is_drawn_is_whole, who_comes_to_control_has_a_chain, who_is_not_told_has_no_chain,
    who_is_reached_has_a_chain,
};
pub use telling::{controlling, reached};
