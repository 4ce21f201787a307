//! The first two phases of loading: the records of an LDIF file, and the schema that those of the schema make. The
//! rules are written in `docs/profile/loading.md`.
//!
//! # Example
//!
//! ```text
//! let mut pieces = Pieces::new(alloc);
//! while pieces.push(alloc, piece)? { .. }
//! let records = pieces.finish(alloc)?;
//! let schema = ad_load_records::schema_of(alloc, &records)?;
//! ```
//!
//! # Proved
//!
//! Records and schema are those of the text, or the first fault with its line; a text in pieces gives what the
//! whole one gives, wherever it is cut.
//!
//! # The caller owes
//!
//! At most 67,108,864 records for the schema.
//!
//! # Cost
//!
//! Linear in the text. Of a text in pieces only the records, and the last piece from its last whole record on, are
//! kept.
#![tactic(auto)]

mod fault;
mod form;
mod pieces;
mod records;
mod schema;

pub use ad_ldif::{Held, LdifLine as HeldLine};
pub use fault::{LoadCause, LoadFault, bad};
pub use form::are_good;
pub use pieces::Pieces;
pub use records::{Record, records_in};
pub use schema::{schema_in, schema_of};
