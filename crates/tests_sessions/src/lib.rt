//! Tests of the program on the sessions of a client, each a row of a table.
#![tactic(auto)]

#[cfg(test)]
mod tests;
