//! The access check, inheritance and the formats of descriptors for programs in C and in what calls C.
//!
//! Each export calls functions of the libraries and states their clauses again. Bytes and texts come as slices,
//! answers go into the memory of the caller, and the result is a code.
//!
//! # Example
//!
//! ```text
//! code = adsd_granted(sd, sd_size, token, token_size, ADSD_NOTHING, 0, path, path_size, want, &mask);
//! ```
//!
//! # Proved
//!
//! Code, buffer and number are what the definition of the call's name says of the bytes given: the answer at the
//! start of the buffer and the rest as it was; or how many bytes are needed; or the code of the first fault. With
//! any code but 0 no right is granted.
//!
//! # The caller owes
//!
//! That a pointer and a length are true of its memory, and that what goes in doesn't overlap with what comes out:
//! no proof sees the caller.
//!
//! # Cost
//!
//! That of the library's call, and a copy of the answer. `adsd_granted_normal` reads a descriptor in its place and
//! takes memory for the token alone.
#![tactic(auto)]

mod access;
mod delivery;
mod descriptors;
mod reading;
mod refusal;
mod texts;
mod tree;
