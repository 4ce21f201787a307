//! Tests of the run over a crash of `cmd_store_laws`, of what no clause says: that it comes to its end, at each moment.
#![tactic(auto)]

#[cfg(test)]
mod crashes;
