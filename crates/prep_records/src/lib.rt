//! A record of each datagram of the service, for the proposals of what is excluded. Guarantees
//! depend only on its Allocates: the rest is only for proposals.
#![tactic(auto)]

mod carrier;
mod elsewhere;
mod keeper;
mod kept;
mod payload;
mod record;
mod recorder;

pub use carrier::{Carrier, CarrierKind};
pub use elsewhere::note_granted_address;
pub use kept::Kept;
pub use record::{CapturePackets, Content, Outside, Record, Records, Stun, UnreadGrant};
pub use recorder::Recorder;
