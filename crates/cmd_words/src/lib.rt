//! The words after the program's name: which command they ask for, what they name, and how its stores are opened.
//!
//! # Example
//!
//! ```text
//! match cmd_words::command_of(&words) {
//!     Some(Command::List { store, name }) => ..,
//!     Some(..) => ..,
//!     None => ..,
//! }
//! ```
//!
//! # Proved
//!
//! The command is the one that the definition reads of the words, with its operands, and there is none exactly where
//! the words are of no form. What is answered of a command, its stores and how they are opened, is what stands of it in
//! the table.
//!
//! # The caller owes
//!
//! Nothing.
//!
//! # Cost
//!
//! A few comparisons of the first word; no memory is taken.
#![tactic(auto)]

mod command;
mod forms;
mod reading;
mod size;

pub use command::{Command, Opening};
pub use forms::FORMS;
pub use reading::command_of;
pub use size::size_of;
