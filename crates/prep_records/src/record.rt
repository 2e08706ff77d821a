//! The records of captures.

ghost use Rattle.std.specs.Prelude.{◌≡◌, ◌/◌};

use crate::carrier::Carrier;
use crate::kept::Kept;
use audit_model::{Addr, Side};
use audit_stun::Class;
use prep_cut::{Allocations, FarEnd};
use std::alloc::Global;

/// A datagram with an end in the service. Its payload is not kept.
#[derive(Clone, Copy, Debug)]
pub struct Record {
    /// Nanoseconds since 1970.
    pub stamp: u64,
    /// Equal data has the same digest. For a DTLS record it is the record's type.
    pub digest: u64,
    pub from: Addr,
    pub to: Addr,
    /// The packet's number among those of its capture, from 0.
    pub packet: u32,
    /// 64 times the capture's number, plus the interface's number in the capture, which is less
    /// than 64.
    pub iface: u16,
    pub side: Side,
    /// The least length of the data in bytes: its length, rounded down to a multiple of 8, and at
    /// most 2,040.
    pub least: u16,
    pub content: Content,
}

impl Record {
    /// The number of its capture.
    pub fn capture(&self) -> u16
        ensures { result ≡ self.now.iface / 64 }
    {
        self.iface / 64
    }
}

/// The kind of the payload.
#[derive(Clone, Copy, Debug, PartialEq, Eq)]
pub enum Content {
    /// Of a datagram with both ends in the service.
    Inside,
    /// Between a relayed address and a peer.
    Relayed,
    /// Data in a Send or Data indication, for or from a peer.
    Data { peer: Option<Addr> },
    /// Data under a channel's number.
    Channel { number: u16 },
    /// A request or a response, by its index among them.
    Stun { place: u32 },
    Dtls,
    Other,
}

/// A request or a response of STUN.
#[derive(Clone, Copy, Debug)]
pub struct Stun {
    pub tid: [u8; 12],
    pub method: u16,
    pub class: Class,
    /// In seconds.
    pub lifetime: Option<u32>,
    pub relayed: Option<Addr>,
    pub code: Option<u16>,
    pub channel: Option<u16>,
    /// The peers that it names: the index of the first one among all, and their number.
    pub peers_from: u32,
    pub peers: u32,
}

/// A relayed address in an Allocate success response over TCP or IPv6.
#[derive(Clone, Copy, Debug)]
pub struct UnreadGrant {
    pub stamp: u64,
    pub relayed: Addr,
    pub client: FarEnd,
}

/// A packet outside the stated moments.
#[derive(Clone, Copy, Debug)]
pub struct Outside {
    pub packet: u32,
    pub is_early: bool,
}

/// The packets of a capture.
#[derive(Debug, Drop)]
pub struct CapturePackets {
    pub count: u32,
    pub outside: Vec<Outside>,
}

/// The records of captures, in the order of the captures.
#[derive(Debug, Drop)]
pub struct Records {
    pub records: Vec<Kept>,
    pub stun: Vec<Stun>,
    pub peers: Vec<Addr>,
    pub unread_grants: Vec<UnreadGrant>,
    /// The packets that may carry data that isn't read.
    pub carriers: Vec<Carrier>,
    pub captures: Vec<CapturePackets>,
    /// The least moment of a packet.
    pub first: Option<u64>,
    /// The Allocates and leases that they show.
    pub allocations: Allocations,
}

impl Records {
    /// No captures. It takes no memory.
    pub fn new(alloc: Global) -> Self {
        Records {
            records: Vec::new(alloc),
            stun: Vec::new(alloc),
            peers: Vec::new(alloc),
            unread_grants: Vec::new(alloc),
            carriers: Vec::new(alloc),
            captures: Vec::new(alloc),
            first: None,
            allocations: Allocations::new(alloc),
        }
    }
}
