//! What a token sees of the objects of a directory, and the entries that a search gives of them: the attributes that
//! are asked for, may be read and have a value, what the token may change, and the descriptor (RFC 4511 4.5.2,
//! [MS-ADTS] 3.1.1.4.4). The rules are in `specs/`: `Seen` and `Entry`.
//!
//! # Example
//!
//! ```text
//! let asking = ad_entries::Asking { dir: &dir, token: &token, search: &search, id, flags };
//! let mut kinds = ad_entries::no_kinds(alloc, &asking)?;
//! let made = ad_entries::entry_judged(alloc, &asking, number, &name, &mut kinds)?;
//! ```
//!
//! # Proved
//!
//! An entry's message is, byte for byte, that of the rules, from what the token sees of the object and from the
//! schema alone.
//!
//! # The caller owes
//!
//! A live object with its own name, and one `kinds` for the objects of one search.
//!
//! # Cost
//!
//! Each name that is asked for is looked up once in a search. Then an entry costs what its object has, or as many
//! attributes as are asked for by name, where these are fewer; and whether one may be read is judged once for the
//! objects of one descriptor and class.
#![tactic(auto)]

mod asking;
mod changing;
mod descriptor;
mod entry;
mod judged;
mod kinds;
mod places;
mod reading;
mod rising;
mod verdicts;

pub use asking::{Asked, Asking, RequestedExtras};
pub use descriptor::Descriptor;
pub use entry::Made;
pub use judged::{Judged, Kinds, descriptor_judged, entry_judged, no_kinds, places_judged};
pub use kinds::{Kind, SelfMatch};
pub use reading::{Sight, is_readable, values_named};
pub use rising::rise;
