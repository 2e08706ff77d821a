//! Tests of the lines and the metrics of an audit of a ring of captures.
#![tactic(auto)]

#[cfg(test)]
mod tests;
