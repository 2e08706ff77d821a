//! The report of shown faults: departures that no order of the captures explains.
#![tactic(auto)]

mod noting;
mod reported;
mod reporting;
mod wording;
mod writing;

pub use reported::Reported;
pub use reporting::report_faults;
pub use writing::{faults_of_files, write_faults};
