//! Tests of the book, over lanes of one event.
#![tactic(auto)]

#[cfg(test)]
mod tests;
