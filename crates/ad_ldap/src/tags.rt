//! The tags of the elements of messages (RFC 4511 4 and 5.1): the first byte of an element.

// ---- of every kind of message

pub const BOOLEAN: u8 = 1;

pub const INTEGER: u8 = 2;

pub const OCTET_STRING: u8 = 4;

pub const ENUMERATED: u8 = 10;

pub const SEQUENCE: u8 = 48;

pub const SET: u8 = 49;

/// The controls of a message.
pub const TAG_OF_CONTROLS: u8 = 160;

// ---- requests

pub const BIND_REQUEST: u8 = 96;

pub const UNBIND_REQUEST: u8 = 66;

pub const SEARCH_REQUEST: u8 = 99;

pub const MODIFY_REQUEST: u8 = 102;

pub const ADD_REQUEST: u8 = 104;

pub const DELETE_REQUEST: u8 = 74;

pub const RENAME_REQUEST: u8 = 108;

pub const COMPARE_REQUEST: u8 = 110;

pub const ABANDON_REQUEST: u8 = 80;

pub const EXTENDED_REQUEST: u8 = 119;

/// The new parent in a rename request.
pub const NEW_SUPERIOR: u8 = 128;

// ---- filters

pub const AND_FILTER: u8 = 160;

pub const OR_FILTER: u8 = 161;

pub const NOT_FILTER: u8 = 162;

pub const EQUALITY_MATCH: u8 = 163;

pub const SUBSTRINGS: u8 = 164;

pub const GREATER_OR_EQUAL: u8 = 165;

pub const LESS_OR_EQUAL: u8 = 166;

pub const PRESENCE: u8 = 135;

pub const APPROXIMATE_MATCH: u8 = 168;

pub const EXTENSIBLE_MATCH: u8 = 169;

/// The piece of substrings that a value begins with.
pub const INITIAL_PIECE: u8 = 128;

/// A piece of substrings within a value.
pub const MIDDLE_PIECE: u8 = 129;

/// The piece of substrings that a value ends with.
pub const FINAL_PIECE: u8 = 130;

/// The rule of an extensible match.
pub const MATCHING_RULE: u8 = 129;

/// The attribute of an extensible match.
pub const MATCH_TYPE: u8 = 130;

/// The value of an extensible match.
pub const MATCH_VALUE: u8 = 131;

/// Whether an extensible match looks at the parts of names.
pub const MATCH_IN_NAMES: u8 = 132;

// ---- responses

pub const BIND_RESPONSE: u8 = 97;

pub const SEARCH_ENTRY: u8 = 100;

pub const SEARCH_DONE: u8 = 101;

pub const MODIFY_RESPONSE: u8 = 103;

pub const ADD_RESPONSE: u8 = 105;

pub const DELETE_RESPONSE: u8 = 107;

pub const RENAME_RESPONSE: u8 = 109;

pub const COMPARE_RESPONSE: u8 = 111;

pub const EXTENDED_RESPONSE: u8 = 120;

/// The name in an extended response.
pub const RESPONSE_NAME: u8 = 138;
