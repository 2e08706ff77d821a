//! The datagrams of a session as data, and the steps in which they occur.

use crate::messages::Payload;
use audit_model::Addr;

pub const CLIENT: Addr = Addr {
    ip: 0xC633_6407,
    port: 40000,
};

pub const OTHER_CLIENT: Addr = Addr {
    ip: 0xC633_6408,
    port: 40001,
};

pub const LISTEN: Addr = Addr {
    ip: 0xC000_0201,
    port: 3478,
};

pub const RELAYED: Addr = Addr {
    ip: 0xC000_0201,
    port: 50000,
};

pub const PEER: Addr = Addr {
    ip: 0xCB00_7109,
    port: 7000,
};

/// A datagram, with its stamp in microseconds.
#[derive(Clone, Copy)]
pub enum Datagram<'a> {
    FromClient(u64, Payload<'a>),
    ToClient(u64, Payload<'a>),
    FromOtherClient(u64, Payload<'a>),
    ToOtherClient(u64, Payload<'a>),
    /// From the peer to the relayed address.
    FromPeer(u64, &'a [u8]),
    /// From the relayed address to a peer.
    ToPeer(u64, Addr, &'a [u8]),
}

/// A step of a session.
#[derive(Clone, Copy)]
pub enum Step<'a> {
    /// An arrival and a departure placed at their stamps, and the act that joins them halfway.
    Exchange(Datagram<'a>, Datagram<'a>),
    /// The same with the act at this moment, in nanoseconds, and with this tie.
    ExchangeAt(Datagram<'a>, Datagram<'a>, u64, u32),
    /// A datagram that lines place.
    Seen(Datagram<'a>),
    /// This number of the peer's datagrams that lines place, one in each microsecond from a stamp
    /// on.
    PeerRepeats(u64, u64, &'a [u8]),
    /// Lines of the certificate.
    Lines(&'a str),
}
