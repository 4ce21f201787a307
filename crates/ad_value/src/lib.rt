//! Values of attributes, by their syntax ([MS-ADTS] 3.1.1.2.2.2): their normal form, and how they are compared and
//! searched.
//!
//! # Example
//!
//! ```text
//! let syntax = Syntax::from_oid(b"2.5.5.12");
//! let value = ad_value::normal(alloc, syntax, bytes)?;
//! let is_same = ad_value::equal(&value, &other);
//! ```
//!
//! # Proved
//!
//! Bytes are read as a value exactly where the syntax has them, as one value, and what it shows reads back.
//! `TooLong` comes exactly above 1,048,576 bytes. Equality and order are those of the keys, and the order is total.
//! A pattern fits exactly where its pieces stand in the key in order and without overlap.
//!
//! # The caller owes
//!
//! Nothing: any bytes are read or refused.
//!
//! # Cost
//!
//! Linear in the bytes. To fit a pattern is linear in the value for each of its pieces at most.
#![tactic(auto)]

mod fault;
mod forms;
mod hashing;
mod held;
mod laws;
mod number;
mod pattern;
mod sent;
mod syntax;
mod value;

pub use ad_bytes::Bytes;
pub use fault::ValueFault;
pub use forms::normal;
pub use hashing::digest;
pub use laws::{
    a_value_is_normal_in_one_way, keys_are_ordered, what_bytes_are, what_is_shown_reads_back,
};
pub use pattern::{Pattern, Pieces, fits};
pub use sent::sent_pattern;
pub use syntax::Syntax;
pub use value::{Key, Value, equal, least_first};
