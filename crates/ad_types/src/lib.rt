//! What an access check is about: paths of GUIDs, and trees of them ([MS-DTYP] 2.5.3.2); and what an access tried, as a
//! value: a right of an object, on a path, and whether it was granted. Audit entries are judged by these.
//!
//! The rules are written in `docs/profile/access.md` and `docs/profile/tries.md`.
//!
//! # Example
//!
//! ```text
//! let path = ad_types::path(&schema, class, attr);
//! let tree = TypeTree::build(alloc, &schema, class, &attrs)?;
//! let tried = ad_types::succeeded(number, READ_PROPERTY, path);
//! ```
//!
//! # Proved
//!
//! A path has the GUIDs that it was made of: the class, the attribute's property set if it has one, the attribute.
//! A tree is made exactly where the nodes make one, and the tree of attributes has a leaf for each of them, with
//! its path, and nothing else.
//!
//! # The caller owes
//!
//! Attributes and a class of the schema.
//!
//! # Cost
//!
//! A path is a plain value of at most three GUIDs. A tree is linear in its attributes, with a look-up for each
//! property set.
#![tactic(auto)]

mod build;
mod laws;
mod path_of;
mod tried;
mod type_path;
mod type_tree;

pub use laws::{attributes_are_leaves, nodes_are_placed};
pub use path_of::path;
pub use tried::{Tried, failed, succeeded};
pub use type_path::{Path, last_of};
pub use type_tree::{Node, TypeTree};
