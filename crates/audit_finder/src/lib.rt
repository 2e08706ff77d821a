//! Makes a certificate: an order of the captured datagrams in which the server kept to its rules.
//!
//! No verdict depends on it. The certificate is checked.
#![tactic(auto)]

mod departed;
mod filling;
mod finder;
mod finding;
mod turn;
mod walk_and_passes;
mod walking;
mod writing;

pub use finder::Finder;
pub use finding::{find, find_parallel};
pub use walk_and_passes::WalkAndPasses;
pub use walking::{find_late, find_once};
