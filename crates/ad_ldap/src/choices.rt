//! What the numbers in the fields of requests and controls mean.

/// The scope of a search that is its base alone (RFC 4511 4.5.1.2).
pub const BASE_OBJECT: u8 = 0;

/// The scope that is the objects right below the base.
pub const SINGLE_LEVEL: u8 = 1;

/// The scope that is the base and all below it.
pub const WHOLE_SUBTREE: u8 = 2;

/// The greatest number that says how a search treats aliases (RFC 4511 4.5.1.3).
pub const DEREF_ALWAYS: u8 = 3;

/// An item of a modify that adds values (RFC 4511 4.6).
pub const ADD_VALUES: u8 = 0;

/// An item of a modify that deletes values.
pub const DELETE_VALUES: u8 = 1;

/// An item of a modify that replaces values.
pub const REPLACE_VALUES: u8 = 2;

/// The owner, in the flags of a descriptor ([MS-ADTS] 3.1.1.3.4.1.11).
pub const OWNER_PART: u8 = 0x1;

/// The group, in the flags of a descriptor.
pub const GROUP_PART: u8 = 0x2;

/// The access control list, in the flags of a descriptor.
pub const DACL_PART: u8 = 0x4;

/// The system access control list, in the flags of a descriptor.
pub const SACL_PART: u8 = 0x8;

/// All four parts of a descriptor.
pub const ALL_PARTS: u8 = 0xf;

/// The number of a message that no request asked for (RFC 4511 4.4).
pub const UNSOLICITED: u32 = 0;
