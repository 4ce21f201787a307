//! What a directory is made of, apart from how it is kept: objects and their stored values, the counters, the
//! edits, and changes that are asked for; and what objects weigh, and whether they are light enough, by the rule of
//! `docs/profile/directory.md`, which `ad_dir_model`'s `Weight` defines; and what the schema says of attributes and
//! classes that rules name. What represents what of the model is `Seen`.
//!
//! # Example
//!
//! ```text
//! let sid = ad_dir_objects::object_sid(&schema, &object);
//! let members = ad_dir_objects::stored_of(object.values.as_slice(), member);
//! let left = ad_dir_objects::after_object(&schema, MAX_WEIGHT, &object);
//! ```
//!
//! # Proved
//!
//! Stored values, the first of them and the identifier of an object are those of the model; so is what is left of
//! an allowance when objects are taken from it. A copy is an equal object.
//!
//! # The caller owes
//!
//! Nothing.
//!
//! # Cost
//!
//! A value's look-up goes over the object's attributes, and a weight over its values. Neither takes memory.
#![tactic(auto)]

mod act;
mod attributes;
mod edit;
mod object;
mod object_copy;
mod sid;
mod weight;

pub use act::{Act, ActItem};
pub use attributes::{digest_value, guid_of, is_named, is_password, is_single, naming_name};
pub use edit::{Edit, Meta};
pub use object::{Object, Stored};
pub use sid::{first_of, last_of, object_sid, sid_of, stored_of};
pub use weight::{MAX_WEIGHT, after_object, after_objects, are_light};
