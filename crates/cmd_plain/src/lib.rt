//! The commands that need no store: `access` and `sddl`.
//!
//! # Example
//!
//! ```text
//! let outcome = cmd_plain::access(alloc, &mut source, &mut site);
//! ```
//!
//! # Proved
//!
//! Where the input is a question or a text, exactly its answer was emitted; else what is no question is refused by
//! its first fault. What each other outcome means, and when it comes, are `AccessDoes` and `SddlDoes`.
//!
//! # The caller owes
//!
//! Nothing: any source, any site.
//!
//! # Cost
//!
//! Linear in the input, which is read whole.
#![tactic(auto)]

mod granting;
mod request;
mod translating;

pub use granting::access;
pub use translating::sddl;
