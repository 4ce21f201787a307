//! Whether the parts of a directory, as they were read, are those of a sound one; if not, at which object it first
//! isn't. The rules are written in `docs/profile/store.md`.
//!
//! # Example
//!
//! ```text
//! ad_rows_sound::judge(alloc, &schema, &objects, None, &pending, &meta)?;
//! ```
//!
//! # Proved
//!
//! At Ok the parts are those of a sound directory, and a sound one is never refused. The number of a refusal is the
//! one that the rules tell of the directory, and of any directory at most one is told.
//!
//! # The caller owes
//!
//! Objects by rising number whose contents were read, and of those that couldn't be read the least as `bad`.
//!
//! # Cost
//!
//! One pass over the objects, with a look-up by name and by identifier for each, and at most one descriptor that is
//! computed for each.
#![tactic(auto)]

mod fault;
mod finding;
mod frame;
mod judging;
mod laws;
mod settled;
mod soundness;
mod waiting;

pub use fault::SoundnessFault;
pub use finding::Entry;
pub use judging::judge;
pub use laws::one_number_is_told;
