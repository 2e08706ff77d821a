//! The datagrams of captures as data.

use audit_model::Addr;

/// A client, by the last number of its address.
#[derive(Clone, Copy)]
pub(super) struct Client(pub(super) u8);

/// A port of the server's relayed addresses.
#[derive(Clone, Copy)]
pub(super) struct Relayed(pub(super) u16);

pub(super) const CLIENT: Client = Client(7);

pub(super) const OTHER_CLIENT: Client = Client(8);

pub(super) const RELAYED: Relayed = Relayed(50_000);

pub(super) const OTHER_RELAYED: Relayed = Relayed(50_001);

pub(super) const PEER: Addr = Addr {
    ip: 0xCB00_7109,
    port: 7000,
};

pub(super) const OTHER_PEER: Addr = Addr {
    ip: 0xCB00_710A,
    port: 7000,
};

/// A client's request.
#[derive(Clone, Copy)]
pub(super) enum Request {
    Allocate,
    /// This number of seconds; 0 deletes.
    Refresh(u32),
    Permit(Addr),
    Bind(u16, Addr),
}

/// The content of a success response.
#[derive(Clone, Copy)]
pub(super) enum Success {
    /// A relayed address, for this number of seconds.
    Allocated(Relayed, u32),
    /// This number of seconds; 0 after a deletion.
    Refreshed(u32),
    Permitted,
    Bound,
}

/// A datagram that the server gets or sends. Requests and their responses have the number of a
/// transaction.
#[derive(Clone, Copy)]
pub(super) enum Datagram<'a> {
    /// A request of a client.
    Asks(Client, u8, Request),
    /// A success response to a client.
    Gives(Client, u8, Success),
    /// An error response 437 to a client, by its method: there is no allocation, or there is one.
    Refuses(Client, u8, u16),
    /// A Send indication of a client, for a peer.
    Sends(Client, Addr, &'a [u8]),
    /// Data from a relayed address, to a peer.
    Relays(Relayed, Addr, &'a [u8]),
    /// Data of a peer, to a relayed address.
    Comes(Addr, Relayed, &'a [u8]),
    /// A Data indication to a client, from a peer.
    Hands(Client, Addr, &'a [u8]),
    /// ChannelData to a client.
    HandsByChannel(Client, u16, &'a [u8]),
}

/// A datagram, and its stamp in microseconds.
pub(super) type Seen<'a> = (u64, Datagram<'a>);
