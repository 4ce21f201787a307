//! Edges by a descriptor that is a value of an object: from whom it grants a right, or any.
//!
//! # Example
//!
//! ```text
//! draw_held(alloc, &dir, &ground, &mut graph, Kind::Act, number, to)?;
//! ```
//!
//! # Proved
//!
//! What is drawn are arcs of the kind to the object's node, from exactly the nodes of those tokens to which a
//! descriptor grants it that the table names for the kind and that the object has as a value.
//!
//! # The caller owes
//!
//! A graph over the nodes of the directory, what is kept of them, and a node of the graph.
//!
//! # Cost
//!
//! A look-up for an object without such a value. A walk over the entries of the descriptor for each right that counts.
#![tactic(auto)]

mod drawing;
mod granting;
mod held;

pub use drawing::draw_held;
