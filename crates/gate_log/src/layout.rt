//! How long the parts of a slot are, in bytes.

ghost use Rattle.std.specs.Prelude.{◌≡◌, ◌+◌, ◌^◌, ◌<◌};

/// A gate.
pub(crate) const GATE: u64 = 1;

/// A head: the magic, the version, and the generation.
pub(crate) const HEAD: u64 = 13;

/// The length of a record's body.
pub(crate) const SIZE: u64 = 8;

/// A record's gate and length.
pub(crate) const RECORD: usize = 9;

/// Where the records of a slot begin.
pub(crate) const RECORDS: usize = 14;

/// How many bytes a body has before it that is made in the memory of its slot: the slot's head, a gate, and the
/// length.
pub const ROOM: usize = 22;

/// Where the records end of a slot that has one, whose body is this long.
pub(crate) fn snapshot_end(length: u64) -> u64
    requires { length + 23 < 2 ^ 64 }
    ensures { result ≡ 23 + length }
{
    GATE + HEAD + GATE + SIZE + length
}
