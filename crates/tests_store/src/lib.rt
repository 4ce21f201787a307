//! Tests of the store and of the outside, of what no clause says: real files, readers and writers that stop and
//! start, and that calls succeed where there is memory. One module a crate. Beside them stands a closed story,
//! proved as a function: a store that is made, added to, and left by a crash at any moment opens with the old
//! bodies or the new ones.
#![tactic(auto)]

#[cfg(test)]
mod files;
#[cfg(test)]
mod journal;
#[cfg(test)]
mod outside;
#[cfg(test)]
mod rows;
mod story;

pub use story::old_or_new;
