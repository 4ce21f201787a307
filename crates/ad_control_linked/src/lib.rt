//! Edges to an account by the group policies that the containers above it link: from the policies that count for the
//! account, and from who may link one there.
//!
//! # Example
//!
//! ```text
//! let mut links = Links::new(alloc);
//! draw_policies(alloc, &dir, &ground, &mut graph, &mut links, Kind::Link, number, to)?;
//! draw_above(alloc, &dir, &ground, &mut judging, &mut graph, Kind::Link, number, b"write:gPLink", to)?;
//! ```
//!
//! # Proved
//!
//! What is drawn are arcs to the node of the account, from exactly the policies that count for it, and from exactly the
//! nodes of the tokens that are told yes to the question at a container above it.
//!
//! # The caller owes
//!
//! A live object; a graph over the nodes of the directory, what is kept of them, and a node of the graph.
//!
//! # Cost
//!
//! The policies of a container are read once, and then one arc leads to each object in it. The question is asked at each
//! container above each object.
#![tactic(auto)]

mod above;
mod links;
mod policies;

pub use above::draw_above;
pub use links::Links;
pub use policies::draw_policies;
