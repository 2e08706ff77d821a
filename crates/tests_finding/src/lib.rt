//! Tests of the finder's passes: a small capture for each constraint and each plan. Without it, no
//! order is found that explains the capture.
#![tactic(auto)]

#[cfg(test)]
mod tests;
