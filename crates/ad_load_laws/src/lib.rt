//! The law of loading: the directory of a text is sound, nothing is pending in it, and each descriptor is the one
//! from the root. No code: it is the contract of a function that does nothing.
//!
//! # Example
//!
//! ```text
//! // In a caller's proof: what a text is loaded as is sound.
//! ad_load_laws::what_is_loaded_is_sound();
//! ```
//!
//! # Proved
//!
//! The directory of a text is sound, nothing is pending in it, and each descriptor is the one that is recomputed
//! from the root.
//!
//! # The caller owes
//!
//! A text that loads.
//!
//! # Cost
//!
//! Nothing runs.
#![tactic(auto)]

mod laws;

pub use laws::what_is_loaded_is_sound;
