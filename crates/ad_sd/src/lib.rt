//! Security descriptors ([MS-DTYP] 2.4.6): their self-relative bytes, their normal bytes, and views over these that
//! take no memory.
//!
//! # Layout
//!
//! Self-relative: a header of 20 bytes (revision, a byte, control bits, four offsets) and the parts at their
//! offsets. Normal: the one form in which a directory keeps a descriptor (`docs/profile/descriptors.md`).
//!
//! # Example
//!
//! ```text
//! let sd = ad_sd::read_sd(alloc, bytes)?;
//! let kept = NormalSd::of(alloc, &sd)?;
//! for ace in kept.view().dacl() { .. }
//! ```
//!
//! # Proved
//!
//! Parts are read exactly where the bytes encode them, at any offsets, and else the fault is the first. What is
//! written is the one canonical encoding and reads back. Normal bytes are of one descriptor, a view shows it, and
//! no normal bytes begin others.
//!
//! # The caller owes
//!
//! `SdView::of_normal` is given bytes that are known to be normal; `SdView::over` looks whether they are.
//!
//! # Cost
//!
//! To read and to write is linear in the bytes. A view takes no memory, and its entries are read as they are asked
//! for. Copies of a `NormalSd` share its bytes.
#![tactic(auto)]

mod entries;
mod entries_in;
mod exact;
mod fault;
mod laws;
mod normal_sd;
mod normal_writing;
mod parts;
mod parts_copy;
mod places;
mod reading;
mod slices;
mod view;
mod view_writing;
mod writing;

pub use entries::Entries;
pub use entries_in::EntriesIn;
pub use fault::SdFault;
pub use laws::no_normal_bytes_begin_others;
pub use normal_sd::NormalSd;
pub use normal_writing::normal;
pub use parts::{AceList, Sd, SdParts};
pub use reading::{read_parts, read_sd};
pub use view::SdView;
pub use view_writing::write_view;
pub use writing::write_parts;
