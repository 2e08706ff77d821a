//! Tests of the parts that a verdict is made of: certificates, leases, values of sightings, and
//! relayed addresses.
#![tactic(auto)]

#[cfg(test)]
mod tests;
