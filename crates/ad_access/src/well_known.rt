//! The identifiers that represent something of the object whose entries name them: an authority, and the one number
//! below it.

/// The authority of identifiers that represent whoever makes or owns an object.
pub const CREATOR_AUTHORITY: u64 = 3;
/// The owner of the object, below [`CREATOR_AUTHORITY`]: S-1-3-4.
pub const OWNER_RIGHTS: u32 = 4;

/// The authority of the operating system's own identifiers.
pub const NT_AUTHORITY: u64 = 5;
/// The object itself, below [`NT_AUTHORITY`]: S-1-5-10.
pub const PRINCIPAL_SELF: u32 = 10;
