//! Access control entries (ACEs, [MS-DTYP] 2.4.4) and lists of them (ACLs, 2.4.5), the rights of a mask, and the
//! letters of rights and flags.
//!
//! # Layout
//!
//! A list: revision, a byte, the size in two bytes, the count in two, two bytes. An entry: type, flags, size in two
//! bytes, mask in four, for types 5 to 7 object flags in four and up to two GUIDs, and the SID. Least significant
//! bytes first (`docs/profile/lists.md`).
//!
//! # Example
//!
//! ```text
//! let list = ad_acl::read_acl(alloc, bytes)?;
//! let again = ad_acl::write_acl(alloc, &list)?;
//! ```
//!
//! # Proved
//!
//! A list is read exactly where the bytes encode one, and else the fault is the one that stands first. What is
//! written is the one canonical encoding and reads back; `TooLong` comes exactly where it needs more than 65,535
//! bytes. `map_generic` maps right by right, and each constant is the bit that the definitions give its right. The
//! tables of codes are those of the definitions, and `letters_of` gives one right's.
//!
//! # The caller owes
//!
//! For `AceIn::split_first` bytes that begin with an entry as it is written, for `write_list_of` no greater count
//! than there are bytes; else nothing.
//!
//! # Cost
//!
//! To read and to write is linear in the bytes. `AceIn` shows an entry in its bytes without memory.
#![tactic(auto)]

mod ace;
mod ace_in;
mod aces;
mod codes;
mod entry;
mod entry_flags;
mod entry_writing;
mod fault;
mod fields;
mod kind;
mod list;
mod list_writing;
mod mask;
mod write_fault;
mod written;

pub use ace::Ace;
pub use ace_in::AceIn;
pub use aces::Aces;
pub use codes::{Code, flag_codes, letters_of, right_codes};
pub use entry::read_entry;
pub use entry_flags::{
    CONTAINER_INHERIT, FAILED_ACCESS, INHERIT_ONLY, INHERITED, NO_PROPAGATE, OBJECT_INHERIT,
    SUCCESSFUL_ACCESS,
};
pub use entry_writing::write_entry;
pub use fault::AclFault;
pub use kind::AceKind;
pub use list::{read_acl, read_list};
pub use list_writing::{write_acl, write_list_of};
pub use mask::{
    ACCESS_SYSTEM_SECURITY, CONTROL_ACCESS, CREATE_CHILD, DELETE, DELETE_CHILD, DELETE_TREE,
    GENERIC_ALL, GENERIC_EXECUTE, GENERIC_READ, GENERIC_WRITE, LIST_CHILDREN, LIST_OBJECT,
    READ_CONTROL, READ_PROPERTY, SELF_WRITE, WRITE_DAC, WRITE_OWNER, WRITE_PROPERTY,
    each_right_is_its_bit, map_generic,
};
pub use write_fault::AclWriteFault;
pub use written::written_size;
