//! Which file of a ring of captures is read next, by the names that dumpcap makes. It is
//! deterministic, and reads no file and no clock.
#![tactic(auto)]

mod digits;
mod laws;
mod next_file;
mod ring;
mod ring_file;

pub use laws::one_next;
pub use next_file::{Next, after, first, is_past};
pub use ring::Ring;
pub use ring_file::RingFile;
