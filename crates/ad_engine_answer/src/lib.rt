//! What a message and a protection run are answered: the reply, and the edits that make what they change, decided on
//! borrowed data; and the frames that are written.
//!
//! The rules are written in `docs/profile/ldap.md`, `changes.md` and `frames.md`, and defined in `specs/`.
//!
//! # Example
//!
//! ```text
//! let decided = message_answer(alloc, &dir, &token, bytes)?;
//! let bytes = output(alloc, 0x82, connection, decided.reply.as_slice())?;
//! ```
//!
//! # Proved
//!
//! The reply, the edits and whether the token is dropped are those that the definition gives (`message_decided`, `IsRun`):
//! each edit may be applied where those before it were, all make the directory that it says, which is sound, and where it
//! is the one from before there is none. Only want of memory is another answer.
//!
//! # The caller owes
//!
//! A sound directory.
//!
//! # Cost
//!
//! What the search takes, or the change. Nothing is written.
#![tactic(auto)]

mod changing;
mod decided;
mod framing;
mod messages;
mod ranges;
mod replies;
mod running;

pub use decided::Decided;
pub use framing::{counts, output};
pub use messages::message_answer;
pub use running::run_answer;
