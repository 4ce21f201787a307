//! Distinguished names (RFC 4514, as a directory writes them): their texts, and when two are the same.
//!
//! # Layout
//!
//! Parts `type=value` with commas between them, the lowest first; values with escapes `\,` and `\2C`. The grammar
//! is in `docs/profile/names.md`.
//!
//! # Example
//!
//! ```text
//! let name = ad_dn::read(alloc, b"CN=bob,DC=corp")?;
//! let text = name.text(alloc)?;
//! let is_same = ad_dn::same(alloc, &name, &other)?;
//! ```
//!
//! # Proved
//!
//! A text is read exactly where the grammar has it, and else the fault's place is the end of the longest prefix
//! with which a name begins. What is written is the one canonical text and reads back as the same name. Two names
//! are the same exactly where their parts are, types without regard to ASCII case and values after full case
//! folding; their keys are equal exactly then.
//!
//! # The caller owes
//!
//! UTF-8 for what is folded; parts of the form for what is put together from parts, which `Rdn::new` makes of what
//! `is_type` and `is_value` accept; for `ancestor` as many levels as the name has.
//!
//! # Cost
//!
//! Linear in the text. `same` takes no memory.
#![tactic(auto)]

mod attribute_type;
mod fault;
mod folding;
mod laws;
mod making;
mod name_key;
mod parts;
mod rdn;
mod reading;
mod steps;
mod text;
mod utf8_state;

pub use ad_bytes::Bytes;
pub use attribute_type::is_type;
pub use fault::DnFault;
pub use folding::{fold, fold_bytes, same, same_rdn, same_value};
pub use laws::{
    a_name_is_spelled_by_its_text, a_spelled_name_has_its_form, a_text_spells_one_name,
    names_of_one_key, what_a_text_spells,
};
pub use making::is_value;
pub use name_key::key;
pub use rdn::{Dn, Rdn, Rdns};
pub use reading::read;
