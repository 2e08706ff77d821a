//! Reads the packets of a pcapng capture that comes in pieces (draft-ietf-opsawg-pcapng).
#![tactic(auto)]

mod block_kind;
mod blocks;
mod byte_order;
mod clock;
mod fault;
mod heading;
mod interfaces;
mod laws;
mod option;
mod packet;
mod reader;
mod scope;
mod wire;

pub use block_kind::BlockKind;
pub use byte_order::ByteOrder;
pub use fault::CaptureFault;
pub use heading::{HEADING_LENGTH, Heading};
pub use laws::{faults_of_blocks, kept_by_longer_texts, one_reading, options_as_spelled};
pub use packet::{Packet, PacketSlice};
pub use reader::BlockReader;
pub use scope::Scope;
