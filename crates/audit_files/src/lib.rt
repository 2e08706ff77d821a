//! The files of a run, from their bytes to the verdict on them.
#![tactic(auto)]

mod apart;
mod captures;
mod certificate_text;
mod judging;
mod laws;
mod source;
mod stop;
mod text;
mod workers;

pub use captures::take_in;
pub use judging::{
    Files, check_files, judge, read_files, read_policy, read_users, verdict_of, write_verdict,
};
pub use laws::{all_that_left_was_relayed, no_listen_address_is_a_relay};
pub use source::{ReadFailed, Source};
pub use stop::{Place, Stop};
pub use text::{TextReading, read_text};
pub use workers::Workers;
