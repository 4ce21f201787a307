//! The objects of a directory by number, each with its descriptor and the identifier that it has, and the indexes
//! over them: their numbers by names, by identifiers and by parents. The descriptors lie in one pool, equal ones
//! once. A contract sees the list of the objects by rising number, as `ad_dir_model` does, with the identifiers; of
//! an index a map that has exactly one entry for each object with the key, and the list of each parent's children.
//!
//! # Example
//!
//! ```text
//! objects.put(&schema, object, normal_bytes)?;
//! let view = objects.sd(number);
//! let changes = ad_dir_table::changes_of(alloc, &schema, &objects, &object)?;
//! ad_dir_table::make_room(alloc, &mut index, parent)?;
//! ad_dir_table::edit(&mut index, changes, number);
//! ```
//!
//! # Proved
//!
//! Each call says what a scan of the list tells. The pool has exactly the objects' descriptors, each with as many
//! sharers as objects have it. An index has exactly one entry for each live object with the key, and stays so by
//! each edit.
//!
//! # The caller owes
//!
//! Normal bytes of a descriptor, fewer than 2^32 - 1 objects, names in UTF-8, and room made before an index is
//! edited.
//!
//! # Cost
//!
//! An object, a name or an identifier is found by one look-up in a map, and a child after another by halving its
//! parent's list. Two descriptors are compared by their ids.
#![tactic(auto)]

mod by_name;
mod by_parent;
mod by_sid;
mod change;
mod folding;
mod hashes;
mod index;
mod name_key;
mod object_slot;
mod objects;
mod parts;
mod pooled;
mod stored_object;

pub use by_name::with_name;
pub use by_parent::{children_of, next_child};
pub use by_sid::with_sid;
pub use change::{Change, Changes};
pub use index::{Index, changes_of, edit, make_room, reserve, take_out};
pub use name_key::NameKey;
pub use objects::Objects;
