//! Names and classes by their places: where a name stands among names, the chain of superclasses of a class, the
//! least set of classes that has it, and the attributes that the classes of a set name. It knows nothing of the
//! records that say it.
//!
//! # Example
//!
//! ```text
//! let place = names.find(b"user");
//! let rows = ad_schema_classes::all_rows(alloc, &links, cn, attrs)?;
//! let is_must = ad_schema_classes::must_in(&rows, class, attr);
//! ```
//!
//! # Proved
//!
//! A look-up says what the plain scan says. The chain is the walk up the superclasses, and a class whose chain
//! never ends is told. The set of a class is the least that has it and, with each class, those next to it.
//!
//! # The caller owes
//!
//! Fewer than 2^32 names and classes, and for the rows a class that is there.
//!
//! # Cost
//!
//! A name is found by a look-up in a map. The rows are linear in all lists of attributes of all sets together; to
//! look into one takes the same time whatever its length.
#![tactic(auto)]

mod chain;
mod flags;
mod heights;
mod laws;
mod links;
mod names;
mod rows;
mod sets;

pub use chain::{above_of, is_a, is_above, is_under, naming_of};
pub use heights::first_endless;
pub use laws::a_class_set_is_the_least;
pub use links::{ClassLinks, Part};
pub use names::{Case, Names, same_name};
pub use rows::{ClassRows, all_rows, allowed_in, must_in};
