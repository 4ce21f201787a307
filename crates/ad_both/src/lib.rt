//! Which objects two directories have in common: an object of the one and an object of the other are the same where the
//! second is found by the name of the first.
//!
//! # Example
//!
//! ```text
//! let objects = ad_both::objects_of_both(alloc, &before, &after)?;
//! ```
//!
//! # Proved
//!
//! Each object of the first directory that the second finds by its name is in the list, once, by rising number in the
//! first; and each of the list is live in both.
//!
//! # The caller owes
//!
//! A live object where a call takes one.
//!
//! # Cost
//!
//! Each name is put together once, and found by a look-up for each of its parts.
#![tactic(auto)]

mod both;

pub use both::{Both, counterpart, objects_of_both};
