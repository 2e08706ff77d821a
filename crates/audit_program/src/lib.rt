//! The whole program as a function of its arguments and its files. It writes the answer and the
//! reason of a refusal to two sinks, and returns the exit status.
#![tactic(auto)]

mod command_line;
mod commands;
mod finding;
mod growing;
mod horizon;
mod live;
mod outlook;
mod pages;
mod running;
mod writing;

pub use command_line::Turns;
pub use finding::{Found, certificate_for, found_either_way};
pub use growing::Growing;
pub use live::run_live;
pub use running::{audit_captures, run};
