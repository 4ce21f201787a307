//! Where the bytes of an id lie.

ghost use Rattle.std.specs.Prelude.{◌≡◌, ◌≤◌, length};

/// The first block of the bytes, their length in bytes, and how many share them. An id without sharers is free.
#[derive(Clone, Copy, Debug)]
pub(crate) struct Slot {
    pub block: usize,
    pub len: usize,
    pub sharers: u32,
}
