//! A directory as a graph of who can come to control what: the table of kinds of edges, its nodes, and arcs that are
//! drawn one after the other, each from all nodes of a set to a node. The table is that of `docs/profile/control.md`.
//!
//! # Example
//!
//! ```text
//! let mut graph = Graph::over(alloc, nodes)?;
//! let set = graph.put_set(members)?;
//! graph.draw(Kind::Reset, set, to)?;
//! graph.draw_from(Kind::Child, parent, child)?;
//! ```
//!
//! # Proved
//!
//! What was drawn stays, and what comes is of one kind, to one node, and from exactly the nodes of the set. Sets stay
//! what they are. What a kind says at run time is its row of the table.
//!
//! # The caller owes
//!
//! Places of nodes and of sets that are there.
//!
//! # Cost
//!
//! A set costs its members once, an arc a few words. Each node has a set of its own.
#![tactic(auto)]

mod drawing;
mod graph;
mod kind;
mod node;
mod texts;

pub use graph::Graph;
pub use kind::Kind;
pub use node::Node;
pub use texts::{Asking, Held, Of, Stand};
