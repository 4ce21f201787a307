//! The directory in memory. A contract sees it as `ad_dir_model` does: the schema's records, the objects by rising
//! number, the pending list, and the counters with the name above the root.
//!
//! # Example
//!
//! ```text
//! let Some(number) = dir.find(alloc, &name)? else { .. };
//! let view = dir.sd(number);
//! dir.apply(Edit::PutObject(object, normal_bytes))?;
//! ```
//!
//! # Proved
//!
//! An edit makes exactly the edited directory, or where memory runs out leaves it as it was. Each look-up says what
//! a scan of the objects says: by number, name, identifier, parent, and who holds a link. What a name leads to is live.
//! The pool has each descriptor once.
//!
//! # The caller owes
//!
//! That an edit may be made (`MayApply`); live numbers where a call asks for one, UTF-8 for `child`, and for
//! `Dir::of` objects that may stand in a directory and distinct pending parents.
//!
//! # Cost
//!
//! A name costs a look-up for each of its parts, a child or an identifier one. An edit is linear in its object,
//! with a look-up in each index. Nothing that is looked up goes over all objects but `numbers`. Look-ups take no
//! memory.
#![tactic(auto)]

mod dir;
mod holders;
mod indexed_objects;
mod linking;
mod live;
mod names;
mod settings;
mod shown;
mod standing;
mod values;
mod weight;

pub use ad_dir_objects::{
    Act, ActItem, Edit, Meta, Object, Stored, digest_value, first_of, guid_of, is_named,
    is_password, is_single, last_of, naming_name, object_sid, sid_of, stored_of,
};
pub use ad_dir_table::NameKey;
pub use dir::Dir;
pub use live::{class_of, live_object, live_sd, naming_of, parent_of};
pub use names::ROOT;
pub use shown::is_naming;
pub use standing::{MAX_DEPTH, goes_with, is_below, parent_number};
