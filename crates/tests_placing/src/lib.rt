//! Tests of placement in portions.
#![tactic(auto)]

#[cfg(test)]
mod tests;
