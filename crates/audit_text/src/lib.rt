//! Texts of lines: their words, and a reader of lines. What the lines of a policy, a credentials
//! file or a certificate mean is defined in the crates of these.
#![tactic(auto)]

mod line_fault;
mod text_reader;
mod token;

pub use line_fault::LineFault;
pub use text_reader::{LONGEST_LINE, Lines, TextReader};
pub use token::{TokenFault, both, cut, halves, number};
