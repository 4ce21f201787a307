//! Identifiers: security identifiers, GUIDs, and the access token of a caller.
//!
//! # Layout
//!
//! A SID: the revision 1, a count of at most 15, the authority in six bytes, most significant first, and as many
//! sub-authorities of four bytes, least first ([MS-DTYP] 2.4.2.2). A GUID: 16 bytes in packet order (2.3.4.2). A
//! token: `docs/profile/identifiers.md`.
//!
//! # Example
//!
//! ```text
//! let sid = Sid::from_text(b"S-1-5-32-544")?;
//! let text = sid.text(alloc)?;
//! let token = Token::from_bytes(alloc, bytes)?;
//! ```
//!
//! # Proved
//!
//! Bytes and texts are read exactly where they encode an identifier, and else the fault is the one that stands
//! first, of a text with its place. What is written reads back, and there is one written form. Equality is that of
//! the identifiers, and equal ones are hashed alike. No encoding of a token begins another one.
//!
//! # The caller owes
//!
//! An authority below 2^48 for `well_known` and its like; else nothing.
//!
//! # Cost
//!
//! To read, write and compare is linear in the bytes. An identifier is a plain value without memory of its own;
//! whether one is among a token's is a look-up in an index where the list is long.
#![tactic(auto)]

mod guid;
mod guid_text;
mod laws;
mod mark;
mod sid;
mod sid_begun;
mod sid_index;
mod sids;
mod text_laws;
mod token;
mod token_copy;
mod token_fault;
mod token_reading;

pub use guid::Guid;
pub use laws::{
    a_guid_is_read_as_spelled, a_sid_has_8_bytes_and_4_for_each, a_sid_is_read_as_spelled,
    a_token_is_read_as_spelled, no_token_begins_another,
};
pub use mark::Mark;
pub use sid::{MAX_SID_BYTES, Sid, SidFault, SidTextFault};
pub use sids::Sids;
pub use text_laws::{
    an_identifier_is_spelled_by_its_text, the_longest_front_is_the_longest_prefix,
    what_a_sid_s_text_spells,
};
pub use token::{RESTORE, SECURITY, TAKE_OWNERSHIP, Token};
pub use token_fault::TokenFault;
