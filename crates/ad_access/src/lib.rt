//! The access check ([MS-DTYP] 2.5.3.2, [MS-ADTS] 5.1.3): which of the wanted rights a descriptor grants to a
//! token, on the object as a whole, on a path, and on each node of a type tree; and which objects a token sees.
//!
//! The rule is written in `docs/profile/access.md`, and defined for one right in `specs/Grant.antt`, apart from the
//! code: the code sweeps over the entries once for each principal, with all rights in one mask.
//!
//! # Example
//!
//! ```text
//! let mask = granted(kept.view(), &token, None, &Path::empty(), READ_CONTROL);
//! let masks = check_tree(alloc, kept.view(), &token, None, &tree, want)?;
//! ```
//!
//! # Proved
//!
//! Right by right: the mask has a bit exactly where it is wanted and the rules grant it on the path. So of each
//! node of a tree: at a leaf on the GUIDs from the root down to it, at any other node at all its children. An
//! object is seen exactly where the rules let it be.
//!
//! # The caller owes
//!
//! A view of a descriptor, which `NormalSd` gives, and nothing else.
//!
//! # Cost
//!
//! `granted` goes over the entries once, and with restricting identifiers once more, which is the restricted pass;
//! `sees` asks it up to three times. Neither takes memory, and an entry costs a look-up in the token. In
//! `check_tree` each entry costs at most one pass over the nodes besides.
#![tactic(auto)]

mod closing;
mod found;
mod grant;
mod holder;
mod laws;
mod matching;
mod rights;
mod sweep;
mod tree;
mod visible;
mod well_known;

pub use grant::granted;
pub use holder::Rank;
pub use laws::{
    a_leaf_is_granted_where_its_path_is, an_inner_node_is_granted_where_its_children_are,
    the_own_identifier_counts_by_who_answers_to_it,
};
pub use matching::{is_about, is_inherit_only, is_spoken, matches};
pub use tree::check_tree;
pub use visible::sees;
pub use well_known::{CREATOR_AUTHORITY, NT_AUTHORITY, OWNER_RIGHTS, PRINCIPAL_SELF};
