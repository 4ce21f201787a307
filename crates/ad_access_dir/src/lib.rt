//! What a token is granted on the objects of a directory, and which of them it sees. The rules are written in
//! `docs/profile/access.md`, and defined for one object in `specs/Sight.antt`. At the attributes of an object, all
//! at once: which attributes objects of its class may have, and the masks of the rights that are granted on their
//! paths, by one sweep. Which attribute is the password, and the rights that set it (`specs/Passwords.antt`). Whether a
//! line can name a right by its cn (`specs/Labels.antt`).
//!
//! # Example
//!
//! ```text
//! let mask = ad_access_dir::granted(&dir, &token, number, &Path::empty(), want);
//! let is_seen = ad_access_dir::is_visible(&dir, &token, dir.list_mode(), number);
//! ```
//!
//! # Proved
//!
//! The rights are those that the object's stored descriptor grants, with its own identifier, and an object is
//! visible exactly where the rules let it be. Each of the masks has the rights on its attribute's own path.
//!
//! # The caller owes
//!
//! A live object, the directory's own mode for `is_visible`, and a class and attributes of the schema.
//!
//! # Cost
//!
//! As `ad_access`: one sweep over the descriptor, and two descriptors for what is visible. Neither takes memory.
//! The masks of all attributes are one sweep over one tree.
#![tactic(auto)]

mod allowed;
mod masks;
mod passwords;
mod sight;
mod titles;
mod visible;

pub use allowed::{allowed_attrs, attr_count, class_count, push_if};
pub use masks::{attr_masks, tree_masks};
pub use passwords::{is_password, password_right};
pub use sight::{granted, grants};
pub use titles::is_title;
pub use visible::is_visible;
