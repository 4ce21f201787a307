//! A list of GUIDs.

use ad_bytes::List;
use ad_ids::Guid;

/// A list of GUIDs, which a contract sees as one.
pub type Guids = List<Guid>;
