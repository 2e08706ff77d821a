//! Tests of the whole program: arguments in, status and both streams out, with files in memory.
#![tactic(auto)]

#[cfg(test)]
mod tests;
