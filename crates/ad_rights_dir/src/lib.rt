//! Who is told yes to a question on which objects of a directory, all at once, as lines.
//!
//! Each set of identities is told once, by a number, and each object by its set. What depends on the object itself is
//! told apart by a sign.
//!
//! # Example
//!
//! ```text
//! let told = ad_rights_dir::rights(alloc, &dir, "reset", Some("OU=Staff,DC=corp,DC=example"))?;
//! ```
//!
//! # Proved
//!
//! The text has exactly the lines of the rules: who has no token, the members of each set, and each object on which
//! anybody is told yes. What these facts say of an identity and an object is what the rule says of its token.
//!
//! # The caller owes
//!
//! Nothing.
//!
//! # Cost
//!
//! A token for each identity; a walk over the entries for each different descriptor with a path and a right; a look for
//! each object; and the members of each different set once. Where an entry is for an object itself, as many tokens are
//! judged by themselves as hold its identifier.
#![tactic(auto)]

mod laws;
mod lines;
mod told;

pub use laws::what_is_told_is_what_the_rule_grants;
pub use told::{Answer, rights};
