//! Tests of the verdict by many workers.
#![tactic(auto)]

#[cfg(test)]
mod tests;
