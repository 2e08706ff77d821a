//! A datagram of the service that owns its payload.

use audit_model::{Addr, Payload, Side};

/// A datagram with one endpoint in the service.
#[derive(Drop)]
pub struct OwnedDatagram {
    pub payload: Payload,
    /// Nanoseconds since 1970.
    pub stamp: u64,
    pub from: Addr,
    pub to: Addr,
    pub side: Side,
}
