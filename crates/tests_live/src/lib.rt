//! Tests of the audit of captures that grow.
#![tactic(auto)]

#[cfg(test)]
mod tests;
