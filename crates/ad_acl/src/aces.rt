//! A list of entries as a value.

use crate::ace::Ace;
use ad_bytes::List;

/// A list of access control entries, which a contract sees as one.
pub type Aces = List<Ace>;
