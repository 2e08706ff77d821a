//! Tests of many datagrams in one feed, and of intakes whose files are joined.
#![tactic(auto)]

#[cfg(test)]
mod joining;
#[cfg(test)]
mod tests;
