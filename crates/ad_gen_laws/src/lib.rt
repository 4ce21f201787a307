//! What the sample is: its two messages, the records of its text, its schema, and its directory, which is sound. Laws
//! alone, no code.
//!
//! # Example
//!
//! ```text
//! // In a caller's proof: which directory the sample is.
//! ad_gen_laws::the_directory_of_the_sample();
//! // There is a sound directory, with a schema and with inherited entries.
//! ad_gen_laws::the_sample_is_sound();
//! ```
//!
//! # Proved
//!
//! For each size from 1 to 1,000 the sample's text is loaded without a fault, and its directory is one that stands
//! here as data, each descriptor as computed from the root. It is sound, with no premise: its schema has attributes and
//! classes, a child of its root has what it inherits, and it is as sound with the root pending. Its two messages are
//! read as these messages.
//!
//! # The caller owes
//!
//! A size that the law speaks of.
//!
//! # Cost
//!
//! Nothing runs.
#![tactic(auto)]

mod laws;
mod soundness;

pub use laws::{
    the_classes_of_the_sample, the_descriptors_of_the_sample, the_directory_of_the_sample,
    the_drafts_of_the_sample, the_lines_of_the_sample, the_links_of_the_sample,
    the_messages_of_the_sample, the_objects_of_the_sample, the_order_of_the_sample,
    the_records_of_the_sample, the_schema_of_the_sample, the_story_of_the_sample,
    the_users_of_the_sample,
};
pub use soundness::the_sample_is_sound;
