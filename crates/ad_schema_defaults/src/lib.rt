//! What holds of each new object, whether it is loaded or added: which class it has, and which descriptor its class
//! gives it. The rules are written in `docs/profile/loading.md`.
//!
//! # Example
//!
//! ```text
//! let class = ad_schema_defaults::class_by_names(alloc, &schema, &names)?;
//! let parts = ad_schema_defaults::default_parts(alloc, &schema, domain, class)?;
//! ```
//!
//! # Proved
//!
//! The class is the one that the values of objectClass give, and none where they give none. The parts are those of
//! the class's default descriptor, read in the domain.
//!
//! # The caller owes
//!
//! Nothing.
//!
//! # Cost
//!
//! The class takes a look-up a name and a walk up the chain for each pair of names; the parts are linear in the
//! default's text.
#![tactic(auto)]

mod class;
mod default;

pub use class::{class_by_names, is_schema_class, is_structural, lowest};
pub use default::default_parts;
