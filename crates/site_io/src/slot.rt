//! The two slots of a site.

/// One of the two places where a site keeps bytes.
#[derive(Clone, Copy, Debug, PartialEq, Eq)]
pub enum Slot {
    A,
    B,
}
