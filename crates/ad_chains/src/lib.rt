//! Chains in a graph: from which nodes one leads to a node, how long the shortest is, and its next edge.
//!
//! A graph is a number of nodes and a list of edges. A chain is a list of edges, each of which begins where the one
//! before ends. Its length is the number of its edges that count, so a set can be a node of its own: an edge that
//! doesn't count leads from each member to the set, and one that counts from the set to what its members come to.
//! Where all edges are of that kind, they are arcs, each from all members of a set to a node, and a way is a chain of
//! arcs: as many as there are sets and nodes that they lead to, and not as many as there are pairs.
//!
//! # Example
//!
//! ```text
//! let links = chains_to(alloc, count, &edges, node)?;
//! match links[x] {
//!     Some(link) => ..   // the length of the shortest chain from x, and the place of its first edge
//!     None => ..         // no chain leads from x to the node
//! }
//! ```
//!
//! # Proved
//!
//! Who is told has a chain, which the steps follow edge by edge, and which is as long as is told. Who has a chain is
//! told, and none of its chains is shorter. So the nodes that are told are the least set that has the node and, with
//! the end of an edge, where the edge begins. Where chains lead *from* a node is the same of the edges turned round. A
//! chain over sets is one from member to member, and the other way round. Of ways over arcs the same is told, arc by
//! arc.
//!
//! # The caller owes
//!
//! Edges between the nodes, and arcs from sets that are there.
//!
//! # Cost
//!
//! Each edge is looked at twice, and each node once. The edges of arcs are the arcs and the members of the sets.
#![tactic(auto)]

mod arc;
mod edge;
mod index;
mod laws;
mod level;
mod link;
mod marking;
mod search;
mod ways;

pub use arc::Arc;
pub use edge::Edge;
pub use laws::{
    a_chain_of_edges_turned_round_leads_back, a_chain_passes_from_node_to_node, a_length_is_least,
    a_length_is_of_a_chain, a_way_from_node_to_node_is_a_chain,
    the_nodes_that_are_told_are_a_closed_set, who_is_not_told_has_no_chain,
    who_is_told_is_in_each_closed_set,
};
pub use link::Link;
pub use search::{chains_from, chains_to};
pub use ways::{Pass, Way, ways_from, ways_to};
