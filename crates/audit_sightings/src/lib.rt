//! The intake: the datagrams of the service in the captures, interface by interface.
#![tactic(auto)]

mod add_packets;
mod ahead;
mod by_interface;
mod fault;
mod intake;
pub mod laws;
mod owned_datagram;
mod parallel;
mod service_datagram;
mod stretch;

pub use ahead::{EventsAhead, ReadsAhead, read_payload, read_sighting};
pub use audit_model::{Side, SightId, Sighting};
pub use by_interface::MAX_SIGHTINGS;
pub use fault::{IntakeFault, IntakeFaultKind};
pub use intake::{Intake, MAX_FILES};
