//! Tests of inputs as large as the limits, and larger by one: no limit is reported as lack of
//! memory.
#![tactic(auto)]

#[cfg(test)]
mod tests;
