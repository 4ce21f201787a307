//! The words in which the formats of a directory are read: an input that is consumed from the left, numbers of a
//! fixed width, readers that give the value or the first fault, texts that are read a byte a step, hexadecimal
//! digits, and lists in memory of their own.
//!
//! # Example
//!
//! ```text
//! let mut input = Input::new(bytes);
//! let size = input.le16()?;
//! let mut body = input.part(usize::from(size))?;
//! ```
//!
//! # Proved
//!
//! A number or a part is the one that stands at the start, and what is left are the bytes after it; `Short` comes
//! exactly where there are too few, and leaves the input as it was. A list holds what its calls say, and stays as
//! it was where memory runs out. Two lists are equal exactly where what they hold is.
//!
//! # The caller owes
//!
//! Nothing, but for `hex_char` a number below 16.
//!
//! # Cost
//!
//! A read takes the same time whatever the length of the input, and no memory: an input borrows its bytes. A push
//! is amortised constant; a copy is linear in the bytes. One value of a `OneOrMany`, and up to 30 bytes of a `Bytes`,
//! stand where the list does.
#![tactic(auto)]

mod bytes;
mod hex;
mod inline;
mod input;
mod list;
mod one_or_many;
mod ranges;

pub use bytes::Bytes;
pub use hex::{hex_char, hex_value};
pub use input::{Input, Short};
pub use list::List;
pub use one_or_many::OneOrMany;
pub use ranges::{are_bytes, is_bytes};
