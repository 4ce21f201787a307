//! When less grants more: deny is monotone. An entry more that denies, an entry less that allows, a group less that no
//! entry denies by never grant a right more; and where one might think so and it isn't so, there is an example that
//! computes. No code: each law is the contract of a function that does nothing.
//!
//! # Example
//!
//! ```text
//! // In a caller's proof: a deny entry more grants nothing that wasn't granted without it.
//! ad_access_laws::an_entry_more_that_denies_grants_no_more();
//! ```
//!
//! # Proved
//!
//! Of every list, at every place of it: an entry more that denies grants no more; an entry less that allows grants no
//! more, unless it sets the owner's rights; an entry that is there to be inherited alone changes nothing. Of every
//! token: a group less grants no more, unless an entry denies by it; a group that only denies from then on grants no
//! more. And that these two conditions are needed.
//!
//! # The caller owes
//!
//! What each law takes as its premise.
//!
//! # Cost
//!
//! Nothing runs.
#![tactic(auto)]

mod entries;
mod examples;
mod groups;

pub use entries::{
    an_entry_less_that_allows_grants_no_more, an_entry_more_that_denies_grants_no_more,
    an_entry_to_be_inherited_alone_changes_nothing,
};
pub use examples::{
    a_deny_entry_to_be_inherited_alone_denies_nothing, a_group_less_may_grant_more,
    an_entry_less_for_the_owner_may_grant_more,
};
pub use groups::{
    a_group_less_that_no_entry_denies_by_grants_no_more, a_group_that_only_denies_grants_no_more,
};
