//! Who holds links to an object, without a look at the others: of each holder and each target how many links lead
//! from the one to the other. What is counted is at least what there is, so each link is found; more is counted
//! only where memory ran out. Counts change by the links that an edit adds and those that it takes away.
//!
//! # Example
//!
//! ```text
//! let change = ad_dir_links::link_change(alloc, before, &after)?;
//! ad_dir_links::add_links(&mut links, number, &added)?;
//! let holder = ad_dir_links::next_holder(&links, target, 0);
//! ```
//!
//! # Proved
//!
//! What is counted covers the links that the objects hold, by each call and also where memory runs out.
//! `next_holder` leaves out no holder that is counted.
//!
//! # The caller owes
//!
//! Nothing.
//!
//! # Cost
//!
//! A count is a look-up in a sorted map. A change is n log n in the links of the object before and after it. The
//! next holder is found by one look-up.
#![tactic(auto)]

mod change;
mod counts;
mod flags;
mod gather;
mod holders;
mod links;
mod marks;

pub use change::{LinkChange, link_change};
pub use counts::{Links, add_links, drop_links};
pub use flags::indexed_attrs;
pub use gather::is_indexed;
pub use holders::{forget_holder, links_of_all};
pub use links::next_holder;
pub use marks::{mark, mark_of_name};
