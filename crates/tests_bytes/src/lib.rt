//! Tests of the crates that parse bytes: captures, frames, STUN messages, credentials and keys.
#![tactic(auto)]

#[cfg(test)]
mod tests;
