//! Writes the report of a verdict.
#![tactic(auto)]

mod reporting;
mod rules;

pub use reporting::report;
pub use rules::rule_text;
