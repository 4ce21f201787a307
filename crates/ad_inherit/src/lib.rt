//! Inheritance: what a descriptor takes over from the descriptor of the parent. Where one is made after the other, the
//! last one is kept, and given again where it is made of the same.
//!
//! The rule is written in `docs/profile/inheritance.md`, and defined in `specs/Copies.antt` (for one entry) and
//! `specs/Whole.antt` (for a descriptor), apart from the code: the code goes over each list once.
//!
//! # Example
//!
//! ```text
//! let sd = ad_inherit::whole(alloc, parent.view(), own.view(), class_guid)?;
//! let mut last = None;
//! let sd = ad_inherit::whole_again(alloc, &mut last, parent.view(), own.view(), class_guid)?;
//! ```
//!
//! # Proved
//!
//! The whole of a descriptor has its own explicit part and after it, in each list that isn't protected, the copies
//! of the parent's entries that pass, in order. The explicit part of a whole is that of its own; a frozen
//! descriptor is its own whole; and more laws of the definitions, each a function's contract. `whole_again` gives the
//! whole, whatever is kept.
//!
//! # The caller owes
//!
//! Nothing: any two views, any class, and whatever an earlier call kept.
//!
//! # Cost
//!
//! Linear in the entries of both lists, each of which is gone over once. Where the last one was made of the same bytes
//! they are compared, and nothing is computed; else what the new one is made of is copied.
#![tactic(auto)]

mod copies;
mod creation;
mod descriptors;
mod laws;
mod lists;
mod repeated;

pub use creation::create;
pub use descriptors::{explicit, whole};
pub use laws::{
    a_frozen_descriptor_is_its_own_whole, a_whole_over_a_whole_is_over_the_own,
    copies_carry_the_inherited_flag, copies_for_another_class_are_not_effective,
    the_explicit_part_of_a_whole_is_that_of_its_own, without_container_inherit_nothing_passes,
};
pub use repeated::{WholeSd, whole_again};
