//! Worked rows of changes, which compute from the definitions.
#![tactic(auto)]

mod rows;

pub use rows::deletions_are_answered_so;
