//! What was decided of a frame.

use ad_bytes::{Bytes, List};
use ad_dir::Edit;

/// What was decided of a frame, before it is made.
#[derive(Drop)]
pub struct Decided {
    /// The body of the frame that answers.
    pub reply: Bytes,
    /// The edits that make the change, in their order. Each may be applied where those before it were. There is none
    /// where the directory is to be as it was.
    pub edits: List<Edit>,
    /// Whether the connection's token is dropped.
    pub drops: bool,
}
