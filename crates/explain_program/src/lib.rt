//! The program turnexplain as a function of its arguments, a host that reads files, and two sinks
//! for the answer and for errors. It returns the exit status.
#![tactic(auto)]

mod as_json;
mod client;
mod command_line;
mod commands;
mod comment;
mod conforming;
mod digesting;
mod evidence;
mod explaining;
mod filed_texts;
mod head;
mod inputs;
mod json;
mod judged;
mod lanes;
mod last_lines;
mod line_of_text;
mod mistakes;
mod named;
mod page_rows;
mod pages;
mod picture;
mod reading;
mod refusal;
mod run_error;
mod running;
mod shape;
mod system;
mod verdict;

pub use as_json::explain_as_json;
pub use command_line::Subject;
pub use digesting::Digesting;
pub use explaining::explain;
pub use run_error::RunError;
pub use running::run;
pub use system::{Explaining, PageFile, Trouble};
