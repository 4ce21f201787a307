//! The password, the one attribute that is set by an extended right: which attribute it is, and the rights that set it.

ghost use Rattle.std.specs.Prelude.{◌≡◌, if◌then◌else◌};
ghost use Rattle.ad_access_dir.specs.Passwords.{is_password, force_change, change};

use ad_ids::Guid;
use ad_schema_classes::same_name;

/// Whether the attribute of a name is unicodePwd.
pub fn is_password(name: &[u8]) -> bool
    ensures { result ≡ is_password name.now }
{
    same_name(name, b"unicodePwd")
}

/// The right User-Force-Change-Password, in packet order.
const FORCE_CHANGE: Guid = Guid {
    bytes: [
        0x70, 0x95, 0x29, 0x00, 0x6d, 0x24, 0xd0, 0x11, 0xa7, 0x68, 0x00, 0xaa, 0x00, 0x6e, 0x05,
        0x29,
    ],
};

/// The right User-Change-Password, in packet order.
const CHANGE: Guid = Guid {
    bytes: [
        0x53, 0x1a, 0x72, 0xab, 0x2f, 0x1e, 0xd0, 0x11, 0x98, 0x19, 0x00, 0xaa, 0x00, 0x40, 0x52,
        0x9b,
    ],
};

/// The right by which a password is set: without the old one, or with it.
pub fn password_right(is_forced: bool) -> Guid
    ensures { result ≡ (if is_forced then force_change else change) }
{
    if is_forced { FORCE_CHANGE } else { CHANGE }
}
