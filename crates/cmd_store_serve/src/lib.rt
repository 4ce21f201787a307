//! The commands `serve`, which answers the frames of its input over a store, and `sample`, which loads a sample and
//! serves it.
//!
//! # Example
//!
//! ```text
//! let outcome = cmd_store_serve::serve(alloc, &mut source, &mut site);
//! ```
//!
//! # Proved
//!
//! A record for each command says what each outcome means and when it comes: what was emitted, what the store
//! represents, and what a crash at each moment leaves. So `serve` emits exactly the answers to the frames, and a
//! crash leaves the directory after a prefix of them that has each answered one (`ServeDoes`).
//!
//! # The caller owes
//!
//! At most 1,000 units for `sample`; else nothing: any source, any site, any slots.
//!
//! # Cost
//!
//! Opening is linear in the store. A frame costs what `ad_engine` takes; `sample` is linear in the directory.
#![tactic(auto)]

mod answers;
mod frames;
mod laws;
mod sampling;
mod sent;
mod size;

pub use frames::serve;
pub use laws::the_frames_of_the_sample;
pub use sampling::sample;
pub use size::size_of;
