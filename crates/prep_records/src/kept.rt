//! A record in compact form.

use crate::record::{Content, Record};
use audit_model::{Addr, Side};
use prep_causes::MaybeNumber;

/// A record in 48 bytes: the addresses are split, so that there is no padding between them. The
/// other fields are those of a `Record`.
#[derive(Clone, Copy, Debug)]
pub struct Kept {
    stamp: u64,
    digest: u64,
    from_ip: u32,
    to_ip: u32,
    from_port: u16,
    to_port: u16,
    packet: u32,
    /// The number of its client and listen address, if it has them and they are numbered.
    pub client: MaybeNumber,
    iface: u16,
    side: Side,
    /// The length of its data in multiples of 8 bytes.
    eights: u8,
    content: KeptContent,
}

/// A `Content` in eight bytes.
#[derive(Clone, Copy, Debug)]
enum KeptContent {
    Inside,
    Relayed,
    /// For or from this peer.
    Data { port: u16, ip: u32 },
    /// Without a peer.
    DataOfNobody,
    Channel { number: u16 },
    Stun { place: u32 },
    Dtls,
    Other,
}

impl Kept {
    /// The compact form of a record. Its client has no number yet.
    pub fn new(record: Record) -> Self {
        let Record {
            stamp,
            digest,
            from,
            to,
            packet,
            iface,
            side,
            least,
            content,
        } = record;
        Kept {
            stamp,
            digest,
            from_ip: from.ip,
            to_ip: to.ip,
            from_port: from.port,
            to_port: to.port,
            packet,
            client: MaybeNumber::none(),
            iface,
            side,
            eights: u8::try_from(least / 8).unwrap_or(u8::MAX),
            content: KeptContent::new(content),
        }
    }

    /// The sort key of records: the moment, then the interface and the packet's number. No two are
    /// equal.
    pub fn order(&self) -> (u64, u16, u32) {
        (self.stamp, self.iface, self.packet)
    }

    /// The whole record.
    pub fn record(&self) -> Record {
        Record {
            stamp: self.stamp,
            digest: self.digest,
            from: Addr {
                ip: self.from_ip,
                port: self.from_port,
            },
            to: Addr {
                ip: self.to_ip,
                port: self.to_port,
            },
            packet: self.packet,
            iface: self.iface,
            side: self.side,
            least: u16::from(self.eights).saturating_mul(8),
            content: self.content.content(),
        }
    }
}

impl KeptContent {
    fn new(content: Content) -> Self {
        match content {
            Content::Inside => KeptContent::Inside,
            Content::Relayed => KeptContent::Relayed,
            Content::Data { peer: Some(peer) } => KeptContent::Data {
                port: peer.port,
                ip: peer.ip,
            },
            Content::Data { peer: None } => KeptContent::DataOfNobody,
            Content::Channel { number } => KeptContent::Channel { number },
            Content::Stun { place } => KeptContent::Stun { place },
            Content::Dtls => KeptContent::Dtls,
            Content::Other => KeptContent::Other,
        }
    }

    fn content(self) -> Content {
        match self {
            KeptContent::Inside => Content::Inside,
            KeptContent::Relayed => Content::Relayed,
            KeptContent::Data { port, ip } => Content::Data {
                peer: Some(Addr { ip, port }),
            },
            KeptContent::DataOfNobody => Content::Data { peer: None },
            KeptContent::Channel { number } => Content::Channel { number },
            KeptContent::Stun { place } => Content::Stun { place },
            KeptContent::Dtls => Content::Dtls,
            KeptContent::Other => Content::Other,
        }
    }
}
