//! An extension of a certificate, as captures grow.

use crate::address::Addr;
use crate::certificate::CertDrop;
use crate::event::Event;
use crate::listed::Listed;

/// An extension of a certificate: lanes after those that it has, events after those of their lanes,
/// and drops after the others.
#[derive(Debug, Drop)]
pub struct Extension {
    /// A client and a listen address for each new lane.
    pub lanes: Listed<(Addr, Addr)>,
    /// Events with the numbers of their lanes, from 0.
    pub events: Listed<(u32, Event)>,
    pub drops: Listed<CertDrop>,
}
