//! The outside as the program sees it: a source of bytes, and a site of two slots and an output.
//!
//! Both are traits. Their ghost members say what is observable of an object's content, and count its faults, so that
//! a caller can claim that an answer of failure has a cause outside. `MemSource` and `MemSite` are objects in memory
//! that are observable and fail as they are bidden. `StdSource`, `OutSite` and `FileSite` stand over a reader, a
//! writer and files, of which nothing is observable.
//!
//! # Example
//!
//! ```text
//! let mut source = MemSource::new(alloc, bytes, &[])?;
//! let whole = read_whole(alloc, &mut source, 67_108_864)?;
//! ```
//!
//! # Proved
//!
//! Of each call of a source what was taken and what is still to come; of each call of a site what becomes of slots
//! and output, and what a crash may leave at each moment since the call began. A call fails only where its count of
//! faults rose. After a `sync` that succeeded a crash leaves what a read gives. Of real files and streams nothing
//! is proved but the counts: they are trusted to be such a source and such a site.
//!
//! # The caller owes
//!
//! Room for the place that is read or written (an end below 2^64), pieces of at least one byte for
//! `MemSource::pieces`, and for `MemSite::crash` a moment that has come.
//!
//! # Cost
//!
//! A call costs what the system's call does. `read_whole` is linear in the input and stops at its limit.
#![tactic(auto)]

mod call;
mod crash;
mod emitting;
mod file_site;
mod file_slot;
mod filling;
mod laws;
mod mem_disk;
mod mem_site;
mod mem_source;
mod out_site;
mod site;
mod slot;
mod source;
mod std_source;
mod whole;

pub use crash::Crash;
pub use file_site::{FileSite, SiteFault};
pub use file_slot::Hold;
pub use filling::{fill, read_full};
pub use laws::counts_rise;
pub use mem_site::MemSite;
pub use mem_source::MemSource;
pub use out_site::OutSite;
pub use site::Site;
pub use slot::Slot;
pub use source::{Failed, Source};
pub use std_source::StdSource;
pub use whole::{WholeFault, read_whole};
