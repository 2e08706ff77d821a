//! The captures of a session, and the certificate that places its datagrams.

use crate::datagrams::{CLIENT, Datagram, LISTEN, OTHER_CLIENT, PEER, RELAYED, Step};
use crate::messages::{Payload, channel_bytes, indication_bytes, message_bytes};
use audit_keys::hmac_sha1;
use audit_model::{Addr, Side};
use audit_samples::{BuildFault, Capture, Class, UdpDatagram, method};
use std::alloc::{AllocError, Global};

/// The name of a datagram, and its stamp in nanoseconds.
#[derive(Clone, Copy)]
struct Seen {
    interface: u32,
    index: u32,
    moment: u64,
}

/// The datagrams of a session so far.
#[derive(Drop)]
pub struct Built {
    alloc: Global,
    clients: Capture,
    client_count: u32,
    /// The datagrams between the server and peers, if they have a capture of their own.
    peers: Option<Capture>,
    peer_count: u32,
    /// The number of the last request's transaction.
    asked: u8,
    pub certificate: String,
}

impl Built {
    /// No datagrams. The certificate begins with its front and the client's lane.
    pub fn new(alloc: Global, has_two_captures: bool, front: &str) -> Result<Built, AllocError> {
        let peers = if has_two_captures {
            Some(Capture::new(alloc)?)
        } else {
            None
        };
        Ok(Built {
            alloc,
            clients: Capture::new(alloc)?,
            client_count: 0,
            peers,
            peer_count: 0,
            asked: 0,
            certificate: format!(in alloc; "{front}lane 198.51.100.7:40000 192.0.2.1:3478\n")?,
        })
    }

    /// The transaction number of the client's next message: 1 for the first datagram, 2 for the
    /// second, and so on.
    fn next_number(&self) -> u8 {
        (self.client_count % 255 + 1) as u8
    }

    fn payload(&mut self, payload: &Payload<'_>) -> Result<Vec<u8>, BuildFault> {
        let alloc = self.alloc;
        match *payload {
            Payload::Channel(number, data, more) => channel_bytes(alloc, number, data, more),
            Payload::Send(peer, data) => {
                indication_bytes(alloc, method::SEND, self.next_number(), peer, data)
            }
            Payload::Data(peer, data) => {
                indication_bytes(alloc, method::DATA, self.next_number(), peer, data)
            }
            Payload::Again(number, method, parts) => {
                self.asked = number;
                message_bytes(alloc, Class::Request, method, number, parts)
            }
            Payload::Message(class, method, parts) => {
                let number = match class {
                    Class::Success | Class::Error => self.asked,
                    Class::Request | Class::Indication => self.next_number(),
                };
                if class == Class::Request {
                    self.asked = number;
                }
                message_bytes(alloc, class, method, number, parts)
            }
        }
    }

    fn add_client(&mut self, stamp: u64, datagram: &UdpDatagram<'_>) -> Result<Seen, BuildFault> {
        self.clients.add(self.alloc, stamp, datagram)?;
        let index = self.client_count;
        self.client_count = index.saturating_add(1);
        Ok(Seen {
            interface: 0,
            index,
            moment: stamp.saturating_mul(1000),
        })
    }

    fn add_peer(&mut self, stamp: u64, datagram: &UdpDatagram<'_>) -> Result<Seen, BuildFault> {
        let Some(peers) = &mut self.peers else {
            return self.add_client(stamp, datagram);
        };
        peers.add(self.alloc, stamp, datagram)?;
        let index = self.peer_count;
        self.peer_count = index.saturating_add(1);
        Ok(Seen {
            interface: 64,
            index,
            moment: stamp.saturating_mul(1000),
        })
    }

    /// A datagram between the listen address and a client.
    fn see_client(
        &mut self,
        stamp: u64,
        side: Side,
        client: Addr,
        payload: &Payload<'_>,
    ) -> Result<Seen, BuildFault> {
        let (from, to) = match side {
            Side::Arrives => (client, LISTEN),
            Side::Leaves => (LISTEN, client),
        };
        let payload = &self.payload(payload)?;
        self.add_client(
            stamp,
            &UdpDatagram {
                side,
                from,
                to,
                payload,
            },
        )
    }

    fn see(&mut self, datagram: &Datagram<'_>) -> Result<Seen, BuildFault> {
        match datagram {
            Datagram::FromClient(stamp, payload) => {
                self.see_client(*stamp, Side::Arrives, CLIENT, payload)
            }
            Datagram::ToClient(stamp, payload) => {
                self.see_client(*stamp, Side::Leaves, CLIENT, payload)
            }
            Datagram::FromOtherClient(stamp, payload) => {
                self.see_client(*stamp, Side::Arrives, OTHER_CLIENT, payload)
            }
            Datagram::ToOtherClient(stamp, payload) => {
                self.see_client(*stamp, Side::Leaves, OTHER_CLIENT, payload)
            }
            Datagram::FromPeer(stamp, payload) => self.add_peer(
                *stamp,
                &UdpDatagram {
                    side: Side::Arrives,
                    from: PEER,
                    to: RELAYED,
                    payload,
                },
            ),
            Datagram::ToPeer(stamp, peer, payload) => self.add_peer(
                *stamp,
                &UdpDatagram {
                    side: Side::Leaves,
                    from: RELAYED,
                    to: *peer,
                    payload,
                },
            ),
        }
    }

    /// Places an arrival and a departure at their stamps, and the act that joins them.
    fn place(
        &mut self,
        arrival: Seen,
        departure: Seen,
        moment: u64,
        tie: u32,
    ) -> Result<(), AllocError> {
        let (from, at, arrived) = (arrival.interface, arrival.index, arrival.moment);
        let (to, by, left) = (departure.interface, departure.index, departure.moment);
        write!(
            self.certificate,
            "in {from}.{at} {arrived} 0\nact {from}.{at} {to}.{by} {moment} {tie}\nout {to}.{by} {left} 0\n"
        )
    }

    pub fn take(&mut self, step: &Step<'_>) -> Result<(), BuildFault> {
        match step {
            Step::Exchange(arrival, departure) => {
                let arrival = self.see(arrival)?;
                let departure = self.see(departure)?;
                let halfway = arrival.moment / 2 + departure.moment / 2;
                self.place(arrival, departure, halfway, 0)?;
            }
            Step::ExchangeAt(arrival, departure, moment, tie) => {
                let arrival = self.see(arrival)?;
                let departure = self.see(departure)?;
                self.place(arrival, departure, *moment, *tie)?;
            }
            Step::Seen(datagram) => {
                self.see(datagram)?;
            }
            Step::PeerRepeats(count, stamp, payload) => {
                for later in 0..*count {
                    self.see(&Datagram::FromPeer(stamp.saturating_add(later), payload))?;
                }
            }
            Step::Lines(lines) => self.certificate.push_str(lines)?,
        }
        Ok(())
    }

    /// The capture of the clients' datagrams, which also has the peer's datagrams unless these have
    /// their own.
    pub fn first(&self) -> &[u8] {
        self.clients.bytes()
    }

    /// The capture of the peer's datagrams, if it is another one.
    pub fn second(&self) -> Option<&[u8]> {
        self.peers.as_ref().map(|peers| peers.bytes())
    }

    /// The digests of the captures, with a space between two.
    pub fn digests(&self) -> Result<String, AllocError> {
        let mut digests = String::new(self.alloc);
        push_digest(&mut digests, self.first())?;
        if let Some(second) = self.second() {
            digests.push(' ')?;
            push_digest(&mut digests, second)?;
        }
        Ok(digests)
    }
}

/// Adds the HMAC-SHA1 of the capture under the key `capture`, as `openssl dgst -sha1 -hmac capture`
/// prints it.
fn push_digest(out: &mut String, capture: &[u8]) -> Result<(), AllocError> {
    for byte in hmac_sha1(b"capture", &[capture]) {
        write!(out, "{byte:02x}")?;
    }
    Ok(())
}
