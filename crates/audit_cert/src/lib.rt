//! Reads and writes certificate texts.
#![tactic(auto)]

mod draft;
mod event_line;
mod fault;
mod lines;
mod parallel;
mod piece_texts;
mod pieces;
mod reading;
mod spelling;
mod writing;

pub use fault::{CertFault, CertFaultKind};
pub use parallel::write_parallel;
pub use reading::{CertificateReader, read};
pub use writing::write;
