//! The sample: a directory of any size as a text of LDIF, and the frames that a connection sends it.
//!
//! # Example
//!
//! ```text
//! let text = ad_gen::ldif(alloc, 900)?;
//! let frames = ad_gen::frames(alloc, 900)?;
//! ```
//!
//! # Proved
//!
//! Text and frames are those of the definitions, for each size. What they mean to the loader and to the engine are
//! the laws of `ad_gen_laws`.
//!
//! # The caller owes
//!
//! At most 1,000 units.
//!
//! # Cost
//!
//! Linear in the text that is made.
#![tactic(auto)]

mod descriptor;
mod lines;
mod messages;
mod objects;
mod records;
mod schema;
mod stream;
mod text;

pub use stream::frames;
pub use text::{MAX_UNITS, ldif};
