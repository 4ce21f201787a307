//! The commands over a store that are asked no frames: `load`, `check`, `list`, `effective` and `settle`.
//!
//! # Example
//!
//! ```text
//! let outcome = cmd_store::check(alloc, &mut site);
//! ```
//!
//! # Proved
//!
//! A record for each command says what each outcome means and when it comes: what was emitted, what the store
//! represents, and what a crash at each moment leaves. So `load` emits the line of the first fault and leaves the slots
//! empty, or leaves a store of the directory of the text (`LoadDoes`).
//!
//! # The caller owes
//!
//! Nothing: any source, any site, any slots.
//!
//! # Cost
//!
//! Opening is linear in the store; `load` and `check` are linear in the directory.
#![tactic(auto)]

mod causes;
mod checking;
mod effect;
mod input;
mod listing;
mod loading;
mod settling;
mod stale;
mod storing;

pub use checking::check;
pub use effect::effective;
pub use listing::list;
pub use loading::load;
pub use settling::settle;
pub use stale::count_stale;
