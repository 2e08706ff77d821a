//! Tests of the machine: sessions that it and `check` judge by one certificate.
#![tactic(auto)]

#[cfg(test)]
mod tests;
