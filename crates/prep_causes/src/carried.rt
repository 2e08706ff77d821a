//! The content of a datagram, by which a departure is compared with an arrival.

ghost use Rattle.std.specs.Prelude.{◌≡◌, ◌↔◌, IsTrue};
ghost use Rattle.prep_causes.specs.Causing.{Agree, Answers};

use audit_model::Addr;

/// The peer of data.
#[derive(Clone, Copy, Debug, PartialEq, Eq)]
pub enum Peer {
    At(Addr),
    /// A relayed address of the service: each of the two clients names the other's.
    OfService,
    /// The data has a channel's number, or no address that can be parsed.
    Unsaid,
}

impl Peer {
    /// Whether the peers of an arrival and of a departure can be the same.
    fn agrees(self, other: Peer) -> bool
        ensures { IsTrue result ↔ Agree self other }
    {
        match (self, other) {
            (Peer::Unsaid, _) | (_, Peer::Unsaid) => true,
            (Peer::OfService, Peer::OfService) => true,
            (Peer::At(one), Peer::At(another)) => one == another,
            _ => false,
        }
    }
}

/// What a departure has in common with the arrival that caused it.
#[derive(Clone, Copy, Debug, PartialEq, Eq)]
pub enum Carried {
    /// Data, by its SHA-256 (FIPS 180-4).
    Data {
        digest: [u8; 32],
        peer: Peer,
    },
    /// A request or a response (RFC 8489, section 5).
    Exchange {
        is_request: bool,
        client: Addr,
        method: u16,
        tid: [u8; 12],
    },
}

impl Carried {
    /// Whether a departure has the data of this arrival, and possibly its peer, or is the response
    /// to this request.
    pub(crate) fn is_answered(&self, departure: &Carried) -> bool
        ensures { IsTrue result ↔ Answers self.now departure.now }
    {
        match (*self, *departure) {
            (
                Carried::Data { digest, peer },
                Carried::Data {
                    digest: sent,
                    peer: from,
                },
            ) => digest == sent && peer.agrees(from),
            (
                Carried::Exchange {
                    is_request: true,
                    client,
                    method,
                    tid,
                },
                Carried::Exchange {
                    is_request: false,
                    client: receiver,
                    method: same_method,
                    tid: same_tid,
                },
            ) => client == receiver && method == same_method && tid == same_tid,
            _ => false,
        }
    }
}
