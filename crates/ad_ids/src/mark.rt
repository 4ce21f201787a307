//! The marks of a token's groups.

/// What a group of a token is for.
#[derive(Clone, Copy, Debug, PartialEq, Eq)]
pub enum Mark {
    /// It allows and denies.
    Enabled,
    /// It only denies.
    DenyOnly,
}
