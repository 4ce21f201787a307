//! A call of a command as it is seen from outside: what it reads, what it emits, what it leaves in the slots, and
//! how it ends.
//!
//! # Example
//!
//! ```text
//! if !cmd_call::are_empty(site)? {
//!     return cmd_call::say(site, TAKEN, Outcome::NoStore);
//! }
//! ```
//!
//! # Proved
//!
//! A text is emitted, or a prefix of it and the output failed, and no slot changes. Each outcome has its status, 0
//! to 7. Numbers and words are put as decimal text.
//!
//! # The caller owes
//!
//! Nothing.
//!
//! # Cost
//!
//! Linear in the text.
#![tactic(auto)]

mod lines;
mod outcome;
mod store;

pub use lines::{fault_line, put, put_counted, put_number};
pub use outcome::Outcome;
pub use store::{are_empty, say};
