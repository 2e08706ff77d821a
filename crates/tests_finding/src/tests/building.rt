//! Builds captures from datagrams, and returns the verdict on them by the passes' certificate.

use super::datagrams::{Client, Datagram, Relayed, Request, Seen, Success};
use audit_finder::find;
use audit_finding::Windows;
use audit_glue::check;
use audit_keys::{Credentials, long_term_key};
use audit_model::{Addr, Side, Verdict, read_policy};
use audit_samples::{
    BuildFault, Capture, Class, MessageBuilder, UdpDatagram, attribute, channel_data, method,
};
use audit_sightings::Intake;
use std::alloc::{AllocError, Global};
use std::hash::RandomState;
use std::io;
use std::random::RandomSource;
use std::test::Fail;

const SERVER_IP: u32 = 0xC000_0201;

const LISTEN: Addr = Addr {
    ip: SERVER_IP,
    port: 3478,
};

/// Moment 0 of the captures, in microseconds since 1970.
const START: u64 = 1_000_000;

const USER: &[u8] = b"user";

const REALM: &[u8] = b"realm";

const PASSWORD: &[u8] = b"pass";

const CREDENTIALS: &[u8] = b"user\trealm\tpass\n";

/// The value of an ERROR-CODE of 437: there is no allocation, or there is one.
const MISMATCH: [u8; 4] = [0, 0, 4, 37];

/// A source whose bytes are all the same.
#[derive(Clone, Copy, Debug)]
struct Fives;

impl RandomSource for Fives {
    fn fill_bytes(&self, bytes: &mut [u8]) -> io::Result<()> {
        bytes.fill(5);
        Ok(())
    }
}

fn address_of(client: Client) -> Addr {
    Addr {
        ip: u32::from_be_bytes([198, 51, 100, client.0]),
        port: 40000,
    }
}

fn endpoint(relayed: Relayed) -> Addr {
    Addr {
        ip: SERVER_IP,
        port: relayed.0,
    }
}

/// A datagram between two endpoints, with its payload.
#[derive(Drop)]
struct Packet {
    side: Side,
    from: Addr,
    to: Addr,
    payload: Vec<u8>,
}

/// A datagram of a client.
fn from_client(client: Client, payload: Vec<u8>) -> Packet {
    Packet {
        side: Side::Arrives,
        from: address_of(client),
        to: LISTEN,
        payload,
    }
}

/// A datagram of the server to a client.
fn to_client(client: Client, payload: Vec<u8>) -> Packet {
    Packet {
        side: Side::Leaves,
        from: LISTEN,
        to: address_of(client),
        payload,
    }
}

fn message(alloc: Global, class: Class, method: u16, number: u8) -> MessageBuilder {
    MessageBuilder::new(alloc, class, method, [number; 12])
}

fn request(alloc: Global, number: u8, request: Request) -> Result<Vec<u8>, BuildFault> {
    let class = Class::Request;
    let built = match request {
        Request::Allocate => message(alloc, class, method::ALLOCATE, number).with(
            attribute::REQUESTED_TRANSPORT,
            &[17, 0, 0, 0],
        )?,
        Request::Refresh(seconds) => message(alloc, class, method::REFRESH, number).with(
            attribute::LIFETIME,
            &seconds.to_be_bytes(),
        )?,
        Request::Permit(peer) => message(
            alloc,
            class,
            method::CREATE_PERMISSION,
            number,
        ).with_address(attribute::XOR_PEER_ADDRESS, peer)?,
        Request::Bind(channel, peer) => {
            let [high, low] = channel.to_be_bytes();
            message(alloc, class, method::CHANNEL_BIND, number)
                .with(attribute::CHANNEL_NUMBER, &[high, low, 0, 0])?
                .with_address(attribute::XOR_PEER_ADDRESS, peer)?
        }
    };
    built
        .with_user(USER, REALM, b"nonce")?
        .signed(&long_term_key(USER, REALM, PASSWORD))?
        .payload(alloc)
}

fn success(
    alloc: Global,
    client: Client,
    number: u8,
    success: Success,
) -> Result<Vec<u8>, BuildFault> {
    let class = Class::Success;
    let built = match success {
        Success::Allocated(relayed, seconds) => message(alloc, class, method::ALLOCATE, number)
            .with_address(attribute::XOR_RELAYED_ADDRESS, endpoint(relayed))?
            .with(attribute::LIFETIME, &seconds.to_be_bytes())?
            .with_address(attribute::XOR_MAPPED_ADDRESS, address_of(client))?,
        Success::Refreshed(seconds) => message(alloc, class, method::REFRESH, number).with(
            attribute::LIFETIME,
            &seconds.to_be_bytes(),
        )?,
        Success::Permitted => message(alloc, class, method::CREATE_PERMISSION, number),
        Success::Bound => message(alloc, class, method::CHANNEL_BIND, number),
    };
    built
        .signed(&long_term_key(USER, REALM, PASSWORD))?
        .payload(alloc)
}

fn mismatch(alloc: Global, number: u8, method: u16) -> Result<Vec<u8>, BuildFault> {
    message(alloc, Class::Error, method, number)
        .with(attribute::ERROR_CODE, &MISMATCH)?
        .payload(alloc)
}

/// A Send or a Data indication.
fn indication(alloc: Global, method: u16, peer: Addr, data: &[u8]) -> Result<Vec<u8>, BuildFault> {
    message(alloc, Class::Indication, method, 0)
        .with_address(attribute::XOR_PEER_ADDRESS, peer)?
        .with(attribute::DATA, data)?
        .payload(alloc)
}

fn packet_of(alloc: Global, datagram: &Datagram<'_>) -> Result<Packet, BuildFault> {
    Ok(match *datagram {
        Datagram::Asks(client, number, asked) => {
            from_client(client, request(alloc, number, asked)?)
        }
        Datagram::Gives(client, number, given) => {
            to_client(client, success(alloc, client, number, given)?)
        }
        Datagram::Refuses(client, number, method) => {
            to_client(client, mismatch(alloc, number, method)?)
        }
        Datagram::Sends(client, peer, data) => {
            from_client(client, indication(alloc, method::SEND, peer, data)?)
        }
        Datagram::Hands(client, peer, data) => {
            to_client(client, indication(alloc, method::DATA, peer, data)?)
        }
        Datagram::HandsByChannel(client, channel, data) => {
            to_client(client, channel_data(alloc, channel, data)?)
        }
        Datagram::Relays(relayed, peer, data) => Packet {
            side: Side::Leaves,
            from: endpoint(relayed),
            to: peer,
            payload: Vec::from_slice(alloc, data)?,
        },
        Datagram::Comes(peer, relayed, data) => Packet {
            side: Side::Arrives,
            from: peer,
            to: endpoint(relayed),
            payload: Vec::from_slice(alloc, data)?,
        },
    })
}

fn capture(alloc: Global, seen: &[Seen<'_>]) -> Result<Capture, BuildFault> {
    let mut capture = Capture::new(alloc)?;
    for (moment, datagram) in seen {
        let Packet {
            side,
            from,
            to,
            payload,
        } = packet_of(alloc, datagram)?;
        let payload = payload.as_slice();
        capture.add(
            alloc,
            START.saturating_add(*moment),
            &UdpDatagram {
                side,
                from,
                to,
                payload,
            },
        )?;
    }
    Ok(capture)
}

/// The seed of the finder's table of clients. The source doesn't fail.
fn seed() -> Result<RandomState, AllocError> {
    RandomState::new(&Fives).map_err(|_| AllocError)
}

/// The verdict on these captures by the passes' certificate, with this `hold-ms` and a grace of 0.
pub(super) fn verdict(alloc: Global, hold: u32, captures: &[&[Seen<'_>]]) -> Result<Verdict, Fail> {
    let policy = format!(in alloc;
        "turnaudit-policy 1\nlisten 192.0.2.1:3478\nrelay 192.0.2.1:49152-65535\nhold-ms {hold}\ngrace-ms 0\n"
    )?;
    let mut intake = Intake::new(alloc, read_policy(alloc, policy.as_bytes())?);
    for seen in captures {
        let file = intake.add_file()?;
        let captured = capture(alloc, seen)?;
        intake.feed(file, captured.bytes())?;
    }
    let users = Credentials::read(alloc, CREDENTIALS)?;
    let certificate = find(alloc, seed()?, &intake, &users, Windows::Whole)?.into_certificate();
    Ok(check(alloc, &intake, &users, &certificate)?)
}

/// The verdict that captures with this number of datagrams and clients conform.
pub(super) fn conforming(datagrams: u32, lanes: u32) -> Verdict {
    Verdict::Conforming { datagrams, lanes }
}
