//! The text of a security descriptor, in the security descriptor definition language ([MS-DTYP] 2.5.1).
//!
//! # Layout
//!
//! `O:` owner, `G:` group, `D:` and `S:` flags and entries `(type;flags;rights;object;inherited;sid)`; the grammar,
//! word by word, is in `docs/profile/sddl.md`.
//!
//! # Example
//!
//! ```text
//! let parts = ad_sddl::read(alloc, b"O:BAD:(A;;GA;;;SY)", None)?;
//! let text = ad_sddl::print_parts(alloc, &parts)?;
//! ```
//!
//! # Proved
//!
//! A text is read exactly where the grammar has it, and else the fault is the one that stands first, with its kind
//! and its place in bytes. What is printed is the one canonical text and reads back, where a part is there at all.
//! The table of aliases is that of the definitions.
//!
//! # The caller owes
//!
//! Nothing: any bytes are read or refused. Without a domain's identifier the aliases of a domain are faults.
//!
//! # Cost
//!
//! Both ways are linear in the text.
#![tactic(auto)]

mod entry;
mod fault;
mod field;
mod laws;
mod list;
mod numeric;
mod printing;
mod ranges;
mod reading;
mod words;

pub use fault::{SddlFault, SddlKind};
pub use laws::{parts_are_spelled_by_their_text, what_a_text_spells};
pub use printing::{print, print_parts, rights_text};
pub use reading::read;
