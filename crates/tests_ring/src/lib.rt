//! Tests of the names and the order of the files of a ring.
#![tactic(auto)]

#[cfg(test)]
mod tests;
