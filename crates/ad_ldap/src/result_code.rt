//! The result codes that are answered (RFC 4511 4.1.9 and appendix A), by the names that stand there.

pub const SUCCESS: u8 = 0;

pub const PROTOCOL_ERROR: u8 = 2;

pub const SIZE_LIMIT_EXCEEDED: u8 = 4;

pub const COMPARE_FALSE: u8 = 5;

pub const COMPARE_TRUE: u8 = 6;

pub const AUTH_METHOD_NOT_SUPPORTED: u8 = 7;

pub const ADMIN_LIMIT_EXCEEDED: u8 = 11;

pub const UNAVAILABLE_CRITICAL_EXTENSION: u8 = 12;

pub const NO_SUCH_ATTRIBUTE: u8 = 16;

pub const UNDEFINED_ATTRIBUTE_TYPE: u8 = 17;

pub const CONSTRAINT_VIOLATION: u8 = 19;

pub const ATTRIBUTE_OR_VALUE_EXISTS: u8 = 20;

pub const INVALID_ATTRIBUTE_SYNTAX: u8 = 21;

pub const NO_SUCH_OBJECT: u8 = 32;

pub const INVALID_DN_SYNTAX: u8 = 34;

pub const INSUFFICIENT_ACCESS_RIGHTS: u8 = 50;

pub const UNWILLING_TO_PERFORM: u8 = 53;

pub const NAMING_VIOLATION: u8 = 64;

pub const OBJECT_CLASS_VIOLATION: u8 = 65;

pub const NOT_ALLOWED_ON_NON_LEAF: u8 = 66;

pub const NOT_ALLOWED_ON_RDN: u8 = 67;

pub const ENTRY_ALREADY_EXISTS: u8 = 68;

pub const OBJECT_CLASS_MODS_PROHIBITED: u8 = 69;
