//! What the checks after the required rights say of an act.

use ad_bytes::List;
use ad_dir::Edit;

/// What the checks after the required rights say of an act.
#[derive(Drop)]
pub enum Plan {
    /// The first that fails gives this code of RFC 4511, and nothing changes.
    Refused(u8),
    /// All of them hold: the edits that make the change, in their order. Each may be applied where those before it
    /// were. There is none where nothing changes.
    Edits(List<Edit>),
}
