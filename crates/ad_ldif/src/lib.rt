//! LDIF, the text form of a directory's objects and of changes (RFC 2849), read record by record.
//!
//! # Layout
//!
//! Records of lines `name: value` or `name:: base64`, an empty line after each; a line that begins with a space
//! goes on with the one before it. The grammar is in `docs/profile/ldif.md`.
//!
//! # Example
//!
//! ```text
//! let mut records = Reader::over(text);
//! while let Some(record) = records.next(alloc)? { .. }
//! ```
//!
//! # Proved
//!
//! The records are those of the text, each once and in order, up to the first fault, which is told with its line;
//! after it the same fault at each call. The end comes exactly where the text ends. So of change records.
//!
//! # The caller owes
//!
//! At most 67,108,864 bytes, and for `Reader::behind` no more with the lines before them; fewer than 2^32 for
//! `line_ends`.
//!
//! # Cost
//!
//! Linear in the text, which is gone over once and borrowed; a value takes memory of its own only where it is
//! folded or in base64, and equal values that follow one another share it.
#![tactic(auto)]

mod change;
mod change_lines;
mod changing;
mod cursor;
mod fault;
mod field;
mod folded;
mod held;
mod laws;
mod logical;
mod physical;
mod pieces;
mod reader;
mod reading;
mod record;
mod repeated;

pub use change::{LdifChange, LdifControl, LdifItem, LdifOp};
pub use fault::{LdifFault, LdifKind};
pub use held::Held;
pub use laws::what_changes_have;
pub use pieces::{end_of_records, line_ends};
pub use reader::Reader;
pub use record::{LdifLine, LdifRecord};
pub use repeated::LineCache;
