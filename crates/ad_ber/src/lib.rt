//! The elements of the Basic Encoding Rules (X.690), as LDAP uses them (RFC 4511 5.1): a tag of one byte, a length
//! of a definite form, and as many bytes.
//!
//! # Layout
//!
//! Tag: one byte. Length: one byte below 128, or one byte 128 + n and then n bytes, most significant first. Body:
//! so many bytes.
//!
//! # Example
//!
//! ```text
//! let found = ad_ber::element(bytes, 0)?;
//! let number = ad_ber::integer(found.body)?;
//! ad_ber::put(&mut into, found.tag, found.body)?;
//! ```
//!
//! # Proved
//!
//! An element is found exactly where the bytes encode one, whatever follows, and else the fault is the one that
//! stands first. What `put` puts encodes an element, and no encoding of its length is shorter.
//!
//! # The caller owes
//!
//! Nothing: any bytes are read or refused.
//!
//! # Cost
//!
//! To find an element looks at its header alone, and a body is borrowed. To put one is linear in its bytes.
#![tactic(auto)]

mod fault;
mod finding;
mod laws;
mod number;
mod writing;

pub use fault::BerFault;
pub use finding::{Tagged, Tlv, element};
pub use laws::{no_length_is_shorter, what_is_put_is_an_element};
pub use number::integer;
pub use writing::{header_len, number_len, put, put_header, put_number};
