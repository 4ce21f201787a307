//! LDAP messages (RFC 4511): requests are read into types, their controls are judged, and replies are written.
//!
//! # Layout
//!
//! Messages are BER as RFC 4511 restricts it; which operations, controls and filters there are stands in
//! `docs/profile/ldap.md`.
//!
//! # Example
//!
//! ```text
//! let message = ad_ldap::read_message(alloc, bytes)?;
//! let settings = ad_ldap::settings(&message);
//! let bytes = ad_ldap::write_reply(alloc, &reply)?;
//! ```
//!
//! # Proved
//!
//! A message is read exactly where the bytes encode one, and else the fault is the one that stands first. What the
//! controls ask for is the definition's. A reply's bytes are those of the rules. A filter is at most 64 deep.
//!
//! # The caller owes
//!
//! Nothing: any bytes are read or refused.
//!
//! # Cost
//!
//! Linear in the message, whose values are copied once; a reply is linear in its bytes.
#![tactic(auto)]

mod again;
mod choices;
mod control_list;
mod controls;
mod elements;
mod fault;
mod filter;
mod filter_reading;
mod items;
mod judging;
mod laws;
mod message_reading;
mod reply;
mod reply_writing;
mod request_reading;
mod requests;
pub mod result_code;
pub mod tags;

pub use choices::{
    ADD_VALUES, ALL_PARTS, BASE_OBJECT, DACL_PART, DELETE_VALUES, DEREF_ALWAYS, GROUP_PART,
    OWNER_PART, REPLACE_VALUES, SACL_PART, SINGLE_LEVEL, UNSOLICITED, WHOLE_SUBTREE,
};
pub use control_list::Controls;
pub use controls::{Control, Settings};
pub use fault::LdapFault;
pub use filter::{Filter, Filters};
pub use items::Item;
pub use judging::settings;
pub use laws::{what_a_message_has, what_is_seen_of_filters};
pub use message_reading::read_message;
pub use reply::Reply;
pub use reply_writing::write_reply;
pub use requests::{Add, Compare, Message, Modify, Op, Rename, Search};
