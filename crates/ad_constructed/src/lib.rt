//! What one may change at an object, as names and a number: the attributes that may be written, the classes of
//! which children may be created, and the parts of the descriptor that may be written. So clients know what they
//! may offer.
//!
//! The rules are written in `docs/profile/search.md`, and defined in `specs/` over what a trait tells of rights.
//!
//! # Example
//!
//! ```text
//! let names = ad_constructed::attributes(alloc, &schema, class, &rights)?;
//! let parts = ad_constructed::parts(&rights);
//! ```
//!
//! # Proved
//!
//! A name is given exactly where objects of the class may have the attribute or stand below, and the trait tells
//! that it may be written or created, in schema order. Nothing says that a later change succeeds.
//!
//! # The caller owes
//!
//! A class of the schema.
//!
//! # Cost
//!
//! One question of the trait for each attribute or class of the schema.
#![tactic(auto)]

mod listing;
mod names;
mod rights;

pub use listing::{attributes, children, parts};
pub use rights::Rights;
