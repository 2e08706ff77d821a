//! Files in memory with a contract about their bytes, and tests of the program with them.
#![tactic(auto)]

mod memory;

pub use memory::{Files, Kept};

#[cfg(test)]
mod tests;
