//! Change records as LDAP messages (RFC 2849, RFC 4511): the message that a record represents, and its bytes.
//!
//! # Example
//!
//! ```text
//! let message = ad_ldifmod_message::message(alloc, &change, 1)?;
//! let bytes = ad_ldifmod_message::write_message(alloc, &message)?;
//! ```
//!
//! # Proved
//!
//! The message has the record's operation, names, values and controls in order. Its bytes are the shortest
//! encoding, and `ad_ldap` reads them as this message.
//!
//! # The caller owes
//!
//! A number from 1 to 2^31 - 1, and for its bytes a message that can be written, as each one of a record is.
//!
//! # Cost
//!
//! Linear in the record; the lines of a new object are grouped by a look-up each.
#![tactic(auto)]

mod asking;
mod grouping;
mod laws;
mod writing;

pub use asking::message;
pub use laws::what_a_change_asks;
pub use writing::write_message;
