//! Edges by questions, as arcs of a graph of control: from who is told yes to what the table of kinds asks.
//!
//! # Example
//!
//! ```text
//! let ways = Ways::of(alloc, &dir)?;
//! let mut judging = Judging::new(alloc, &dir, &ground)?;
//! draw_ways(alloc, &dir, &ground, &mut judging, &mut graph, &ways, Kind::Reset, number, to)?;
//! ```
//!
//! # Proved
//!
//! Arcs of a kind come from exactly the nodes of those tokens to which one of the kind's ways goes. Arcs are drawn
//! alike from who is told yes to one question, and from who meets given requirements. What was drawn before stays.
//!
//! # The caller owes
//!
//! The ground of the directory, over whose nodes the graph is drawn; live objects; and ways and questions of the
//! directory's schema.
//!
//! # Cost
//!
//! A set of tokens is judged once and put once as a set of nodes. So an object costs a look for each question, and an
//! arc or two. Where an entry takes a right from the object itself, one set is put for it.
#![tactic(auto)]

mod asking;
mod drawn;
mod going;
mod judging;
mod ways;

pub use asking::draw_asked;
pub use going::draw_ways;
pub use judging::{Judging, draw_needed};
pub use ways::Ways;
