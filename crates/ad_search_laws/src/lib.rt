//! What a token can't tell apart: two directories that differ in what it doesn't see are one view to it, and so it
//! gets the same answers from both. Laws alone, no code.
//!
//! A search and a compare answer from the view (`ad_search`): that is a law of its own. The laws here say when the
//! view of two directories is one: an object that isn't seen may be there or not; a value that may not be read may be
//! any; and a descriptor may represent another one that grants the token the same. And what is told of the rights to
//! change an object is what a request to change it is granted: of its attributes, of the parts of its descriptor, and
//! of the classes of which objects may be added below it.
//!
//! # Example
//!
//! ```text
//! // In a caller's proof: an object that isn't seen may be there or not.
//! ad_search_laws::a_hidden_object_may_be_there_or_not();
//! ```
//!
//! # Proved
//!
//! When two directories are one view to a token, so that a search and a compare are answered alike; and what is
//! told of the rights to change an object is what a request to change it is granted: an attribute or a part of the
//! descriptor exactly where its replacement is, a class exactly where no addition of it is refused for its class.
//!
//! # The caller owes
//!
//! What each law takes as its premise.
//!
//! # Cost
//!
//! Nothing runs.
#![tactic(auto)]

mod children;
mod laws;
mod parts;
mod refusals;
mod told;

pub use children::{
    a_class_is_told_exactly_where_the_checks_of_a_class_hold,
    an_addition_of_a_class_that_is_told_is_not_refused_for_its_class,
    an_addition_that_is_done_is_of_a_class_that_is_told,
    the_classes_that_are_told_have_the_names_that_are_listed,
};
pub use laws::{
    a_descriptor_that_grants_the_same_may_stand_for_another, a_hidden_object_may_be_there_or_not,
    a_value_that_may_not_be_read_may_be_any,
};
pub use parts::{
    parts_that_are_granted_are_told_to_be_writable, parts_that_are_told_to_be_writable_are_granted,
    the_number_of_parts_has_the_bits_of_their_rights,
};
pub use refusals::{
    a_change_of_what_is_not_seen_tells_what_a_search_tells, a_matched_name_has_one_reading,
};
pub use told::{
    the_attributes_that_are_told_have_the_names_that_are_listed,
    what_is_granted_is_told_to_be_writable, what_is_told_to_be_writable_is_granted,
};
