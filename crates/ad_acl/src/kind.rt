//! The kinds of entries.

/// What an entry does where it applies.
#[derive(Clone, Copy, Debug, PartialEq, Eq)]
pub enum AceKind {
    /// It grants its rights.
    Allow,
    /// It refuses its rights.
    Deny,
    /// It asks for an audit event.
    Audit,
}
