//! The frames of the input: each is a header of seven bytes and a body. The next one is taken from a source.
//!
//! # Layout
//!
//! The kind in one byte, the connection in two, the length of the body in four, most significant first, and the
//! body (`docs/profile/frames.md`).
//!
//! # Example
//!
//! ```text
//! while let Some(frame) = ad_frames::next_frame(alloc, &mut source)? { .. }
//! ```
//!
//! # Proved
//!
//! The frame, the end, or the fault is what reading the bytes to come gives, and only what was read is taken. The
//! frames of an input are the longest list of frames that it begins with, and there is one such list. `Source`
//! comes only where the source failed.
//!
//! # The caller owes
//!
//! Nothing.
//!
//! # Cost
//!
//! Linear in the frame's bytes, which are taken into memory once. A length above the limit is refused before
//! anything is taken for it.
#![tactic(auto)]

mod fault;
mod filling;
mod frame;
pub mod kind_byte;
mod laws;
mod reading;

pub use fault::FrameFault;
pub use frame::{Frame, FrameBody};
pub use laws::{
    a_frame_needs_nothing_behind_it, no_frame_begins_another, the_frames_are_the_longest,
    the_frames_one_by_one,
};
pub use reading::{MAX_STEPS, next_frame};
