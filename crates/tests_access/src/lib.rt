//! Tests of the crates of the access check, of what no clause says: outside cases, and that calls succeed where
//! there is memory. One module a crate.
#![tactic(auto)]

#[cfg(test)]
mod access;
#[cfg(test)]
mod acl;
#[cfg(test)]
mod bytes;
#[cfg(test)]
mod ids;
#[cfg(test)]
mod inherit;
#[cfg(test)]
mod queue;
#[cfg(test)]
mod rights;
#[cfg(test)]
mod sd;
