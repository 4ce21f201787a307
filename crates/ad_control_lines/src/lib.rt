//! The lines that tell chains of control: a line for each node that is told, and then one for each first step, or last
//! one.
//!
//! The rules are written in `docs/profile/control.md`, and defined in the `Lines` of `ad_control`.
//!
//! # Example
//!
//! ```text
//! let ways = controlling(alloc, &graph, place)?;
//! let text = lines(alloc, &dir, false, &graph, &ground, ways.as_slice())?;
//! ```
//!
//! # Proved
//!
//! The text has exactly the lines of the rules. What decides a step is what `who` tells of its last question.
//!
//! # The caller owes
//!
//! What is kept of the directory, and first steps that are edges.
//!
//! # Cost
//!
//! A name for each object that is told. Only steps that are told are asked why: the questions of one kind, for one
//! token.
#![tactic(auto)]

mod deciding;
mod nodes;
mod numbers;
mod steps;
mod texts;
mod tokens;

pub use texts::lines;
