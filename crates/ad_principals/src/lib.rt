//! Principals: the token that a directory gives each of them, by the groups whose members they are, and the object
//! that a text names; and the pieces of lines in which objects and identifiers are told. The rules are written in
//! `docs/profile/principals.md`.
//!
//! # Example
//!
//! ```text
//! let members = Members::of(alloc, &dir)?;
//! let number = ad_principals::principal_named(alloc, &dir, name)?;
//! let token = members.token(alloc, &dir, number, &[])?;
//! ```
//!
//! # Proved
//!
//! The token is the one that the rules give the principal: its identifier, the groups whose member it is, directly or
//! by others, and what these had as identifiers before. There is one; more members give no fewer groups; the order of members and identifiers is
//! free; and who has too many groups has none. A text names the object that the rules say, or the fault is theirs.
//!
//! # The caller owes
//!
//! For `Members::token` the members of the same directory.
//!
//! # Cost
//!
//! The members are gone over once for all tokens; a token is linear in the groups that are reached.
#![tactic(auto)]

mod bringing;
mod enabled;
mod fault;
mod first;
mod groups;
mod history;
mod laws;
mod lines;
mod listing;
mod members;
mod named;
mod primary;
mod reaching;
mod taking;
mod token;
mod values;

pub use enabled::is_security_enabled;
pub use fault::{NameFault, TokenFault};
pub use groups::in_order;
pub use laws::{
    a_principal_has_one_token, more_members_give_no_fewer_groups,
    the_order_of_members_and_identifiers_is_free, who_has_too_many_groups_has_no_token,
};
pub use lines::{put, put_ended, put_labelled, put_name, put_sid, put_spaced};
pub use listing::{is_principal, principals};
pub use members::Members;
pub use named::{principal_named, sid_of_text};
pub use token::token_of;
