//! The start of sessions: the client is challenged, allocates, and requests a permission or a
//! channel.

use crate::datagrams::{CLIENT, Datagram, PEER, RELAYED, Step};
use crate::messages::{BY_USER, Part, Payload, SIGNED};
use audit_samples::{Class, attribute, method};

/// REQUESTED-TRANSPORT for UDP.
pub const UDP: Part<'static> = Part::Value(attribute::REQUESTED_TRANSPORT, &[17, 0, 0, 0]);

pub const OF_PEER: Part<'static> = Part::Address(attribute::XOR_PEER_ADDRESS, PEER);

pub const GIVES_RELAYED: Part<'static> = Part::Address(attribute::XOR_RELAYED_ADDRESS, RELAYED);

pub const SEEN_AS_CLIENT: Part<'static> = Part::Address(attribute::XOR_MAPPED_ADDRESS, CLIENT);

/// An Allocate without credentials, and the error response.
pub const CHALLENGED: Step<'static> = Step::ExchangeAt(
    Datagram::FromClient(
        1_000_000,
        Payload::Message(Class::Request, method::ALLOCATE, &[UDP]),
    ),
    Datagram::ToClient(
        1_001_000,
        Payload::Message(
            Class::Error,
            method::ALLOCATE,
            &[
                Part::Value(attribute::ERROR_CODE, b"\0\0\x04\x01no"),
                Part::Challenge,
            ],
        ),
    ),
    1_000_000_000,
    1,
);

/// A request of `user` to allocate over UDP.
pub const ALLOCATE: Payload<'static> = Payload::Message(
    Class::Request,
    method::ALLOCATE,
    &[UDP, BY_USER, SIGNED],
);

/// An allocation of the relayed address, with this lifetime in seconds.
macro_rules! allocated {
    ($seconds:literal) => {
        Step::Exchange(
            Datagram::FromClient(1_010_000, ALLOCATE),
            Datagram::ToClient(
                1_012_000,
                Payload::Message(
                    Class::Success,
                    method::ALLOCATE,
                    &[
                        GIVES_RELAYED,
                        Part::Seconds($seconds),
                        SEEN_AS_CLIENT,
                        SIGNED,
                    ],
                ),
            ),
        )
    };
}

pub const ALLOCATED: Step<'static> = allocated!(600);

pub const ALLOCATED_FOR_1200: Step<'static> = allocated!(1200);

pub const ALLOCATED_FOR_NO_TIME: Step<'static> = allocated!(0);

/// A request for a permission for the peer.
pub const PERMIT: Payload<'static> = Payload::Message(
    Class::Request,
    method::CREATE_PERMISSION,
    &[OF_PEER, BY_USER, SIGNED],
);

/// Its success response, and that to a request for more peers.
pub const PERMIT_SUCCESS: Payload<'static> = Payload::Message(
    Class::Success,
    method::CREATE_PERMISSION,
    &[SIGNED],
);

pub const PERMITTED: Step<'static> = Step::Exchange(
    Datagram::FromClient(1_020_000, PERMIT),
    Datagram::ToClient(1_021_000, PERMIT_SUCCESS),
);

/// A request for a channel with this number for the peer.
macro_rules! bind {
    ($number:literal) => {
        Payload::Message(
            Class::Request,
            method::CHANNEL_BIND,
            &[
                Part::Value(attribute::CHANNEL_NUMBER, $number),
                OF_PEER,
                BY_USER,
                SIGNED,
            ],
        )
    };
}

pub const BIND_4001: Payload<'static> = bind!(b"\x40\x01\0\0");

pub const BIND_SUCCESS: Payload<'static> = Payload::Message(
    Class::Success,
    method::CHANNEL_BIND,
    &[SIGNED],
);

pub const BOUND_4000: Step<'static> = Step::Exchange(
    Datagram::FromClient(1_020_000, bind!(b"\x40\0\0\0")),
    Datagram::ToClient(1_021_000, BIND_SUCCESS),
);

pub const BOUND_4FFF: Step<'static> = Step::Exchange(
    Datagram::FromClient(1_020_000, bind!(b"\x4F\xFF\0\0")),
    Datagram::ToClient(1_021_000, BIND_SUCCESS),
);

pub const BOUND_5000: Step<'static> = Step::Exchange(
    Datagram::FromClient(1_020_000, bind!(b"\x50\0\0\0")),
    Datagram::ToClient(1_021_000, BIND_SUCCESS),
);
