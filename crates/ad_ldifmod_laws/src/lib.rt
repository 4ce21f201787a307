//! What the messages of dsacls-like lines do, once each is served: each object that a line names has the list that
//! the lines say. Laws alone, no code.
//!
//! # Example
//!
//! ```text
//! // In a caller's proof: each object has the list that its lines say.
//! ad_ldifmod_laws::messages_that_succeed_give_the_lists();
//! ```
//!
//! # Proved
//!
//! Where each message is answered with success, each object that a line names has the list that the lines say, and
//! its own lines alone decide it.
//!
//! # The caller owes
//!
//! A sound directory whose entries have their ranges, and messages that succeed.
//!
//! # Cost
//!
//! Nothing runs.
#![tactic(auto)]

mod laws;

pub use laws::{
    a_message_frame_is_its_message_behind_seven_bytes, an_object_has_what_its_own_lines_make,
    messages_that_succeed_give_the_lists,
};
