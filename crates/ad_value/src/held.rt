//! The key of a value, where it lies.

/// The key of a value, where it lies.
#[derive(Drop)]
pub(crate) enum KeyIn<'a> {
    Bytes(&'a [u8]),
    Number(i64),
}
