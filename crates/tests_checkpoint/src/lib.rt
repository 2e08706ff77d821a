//! Tests of the text of a checkpoint.
#![tactic(auto)]

#[cfg(test)]
mod tests;
