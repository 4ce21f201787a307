//! The kinds of frames, by their first byte.

/// A token for the connection.
pub const TOKEN: u8 = 1;

/// An LDAP message.
pub const MESSAGE: u8 = 2;

/// So many steps of propagation.
pub const STEPS: u8 = 3;

/// A run that protects accounts.
pub const RUN: u8 = 4;
