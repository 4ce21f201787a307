//! The schema of a directory: its attributes, classes and rights, read from records of lines.
//!
//! # Example
//!
//! ```text
//! let mut builder = Builder::new(alloc)?;
//! builder.add(SchemaKind::Class, &lines)?;
//! let schema = builder.finish()?;
//! let user = schema.class(b"user");
//! ```
//!
//! # Proved
//!
//! A record is added, or its first fault is the answer and the builder stays. The finished schema is that of the
//! records, or the first fault among them. Each look-up of it says what a scan of the records says, and takes no
//! memory. In every schema names are distinct and chains end.
//!
//! # The caller owes
//!
//! Fewer than 2^32 - 1 records, and for what is asked of an attribute or a class one that the schema gave.
//!
//! # Cost
//!
//! To make a schema is linear in its records and in what its classes allow. A name or a GUID is found by a look-up
//! in a map, and what a class allows by one in a table.
#![tactic(auto)]

mod builder;
mod classes;
mod counts;
mod fault;
mod field;
mod finish;
mod guids;
mod info;
mod laws;
mod line;
mod lines;
mod links;
mod meaning;
mod number;
mod passes;
mod reading;
mod record;
mod schema;

pub use ad_bytes::Bytes;
pub use ad_schema_classes::a_class_set_is_the_least;
pub use builder::Builder;
pub use counts::{attr_count, class_count};
pub use fault::SchemaFault;
pub use guids::Guids;
pub use info::{AttrId, AttrInfo, ClassId, ClassInfo, RightInfo};
pub use laws::{chains_end, names_are_distinct, records_are_few};
pub use line::{Line, SchemaKind, SchemaRecord};
pub use lines::Lines;
pub use meaning::{RuleAttr, is_computed};
pub use schema::Schema;
