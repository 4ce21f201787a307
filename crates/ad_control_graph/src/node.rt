//! What a chain leads over.

use ad_ids::Sid;

/// A live object, by its number, or an identifier that counts without one.
#[derive(Clone, Copy, Debug, PartialEq, Eq)]
pub enum Node {
    Object(u32),
    Identifier(Sid),
}
