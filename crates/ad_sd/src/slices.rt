//! The bytes from an offset on.

ghost use Rattle.std.specs.Prelude.{◌≡◌, ◌≤◌, length, drop};

/// The bytes from an offset on.
#[inline]
pub(crate) fn tail(bytes: &[u8], at: usize) -> &[u8]
    requires { at ≤ length bytes.now }
    ensures { result.now ≡ drop at bytes.now }
{
    &bytes[at..]
}
