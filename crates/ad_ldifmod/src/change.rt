//! What a line does to a list.

use ad_acl::Ace;
use ad_ids::Sid;

// What a line does to a list.
#[derive(Clone, Copy, Debug)]
pub(crate) enum Change {
    /// Puts an entry after the others.
    Behind(Ace),
    /// Puts an entry before the others.
    Front(Ace),
    /// Takes out all entries of an identifier.
    Without(Sid),
}
