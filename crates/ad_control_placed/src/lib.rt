//! Edges by where objects stand: from the root, the parent, AdminSDHolder, the policies that count and who may link one,
//! and the members of a group.
//!
//! # Example
//!
//! ```text
//! let mut places = Places::of(alloc, &dir)?;
//! draw_placed(alloc, &dir, &ground, &mut judging, &mut graph, &mut places, Kind::Child, number, to)?;
//! ```
//!
//! # Proved
//!
//! What is drawn are arcs of the kind to the object's node, from exactly the nodes that the table names by where they
//! stand.
//!
//! # The caller owes
//!
//! A sound directory; a live object; a graph over the nodes of the directory, what is kept of them and of the graph, and
//! a node of it.
//!
//! # Cost
//!
//! An arc from an object is a look-up. The members of a group cost as many look-ups as tokens hold its identifier.
#![tactic(auto)]

mod drawing;
mod members;
mod objects;
mod places;

pub use drawing::draw_placed;
pub use places::Places;
