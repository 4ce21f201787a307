//! The flags of an access control entry ([MS-DTYP] 2.4.4.1).

/// Objects that hold no others inherit the entry.
pub const OBJECT_INHERIT: u8 = 0x01;
/// Objects that hold others inherit the entry.
pub const CONTAINER_INHERIT: u8 = 0x02;
/// Only direct children inherit the entry.
pub const NO_PROPAGATE: u8 = 0x04;
/// The entry is there to be inherited, and says nothing of the object itself.
pub const INHERIT_ONLY: u8 = 0x08;
/// The entry was inherited.
pub const INHERITED: u8 = 0x10;
/// An audit entry speaks of access that is granted.
pub const SUCCESSFUL_ACCESS: u8 = 0x40;
/// An audit entry speaks of access that is refused.
pub const FAILED_ACCESS: u8 = 0x80;
