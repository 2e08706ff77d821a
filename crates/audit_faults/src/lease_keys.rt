//! The keys of requests for leases and of their success responses.

ghost use Rattle.std.specs.Prelude.{◌≡◌};
ghost use Rattle.audit_stun.specs.Parts.{parts_of};
ghost use Rattle.audit_faults.specs.Leased.{mixed_of, address_number as number_of_address, lease_key, answer_key as key_of_answer, allocate_key as key_of_allocate, relayed_key as key_of_relayed, beginning_key as key_of_beginning, permission_key as key_of_permission, channel_key as key_of_channel};

use crate::keyed::transaction_key;
use audit_model::Addr;
use audit_stun::Message;
use std::hash::{DefaultHasher, Hasher};

/// Kinds of keys. The numbers below them are methods, and above them channel numbers.
const ALLOCATE_REQUEST: u64 = 65_536;

const RELAYED: u64 = 65_537;

const BEGUN: u64 = 65_538;

const PERMITTED: u64 = 65_539;

const BOUND: u64 = 131_072;

/// A digest of two numbers.
pub fn mixed(one: u64, other: u64) -> u64
    ensures { result ≡ mixed_of one other }
{
    let mut hasher = DefaultHasher::new();
    hasher.write_u64(one);
    hasher.write_u64(other);
    hasher.finish()
}

/// A number for each address.
pub fn address_number(addr: Addr) -> u64
    ensures { result ≡ number_of_address addr }
{
    u64::from(addr.ip) * 65_536 + u64::from(addr.port)
}

/// The key of a kind, a client and a third number.
pub fn of_client(kind: u64, client: Addr, rest: u64) -> u64
    ensures { result ≡ lease_key kind client rest }
{
    mixed(mixed(kind, address_number(client)), rest)
}

/// The key of a success response to the client: its method, and the transaction that it shares with
/// its request.
pub fn answer_key(client: Addr, said: &Message<'_>) -> u64
    ensures { result ≡ key_of_answer (parts_of said.now).method client (parts_of said.now).tid }
{
    of_client(u64::from(said.method()), client, transaction_key(said))
}

/// The key of an Allocate request of the client: the transaction that it shares with its response.
pub fn allocate_key(client: Addr, said: &Message<'_>) -> u64
    ensures { result ≡ key_of_allocate client (parts_of said.now).tid }
{
    of_client(ALLOCATE_REQUEST, client, transaction_key(said))
}

/// The key of an Allocate success response: its relayed address.
pub fn relayed_key(client: Addr, relayed: Addr) -> u64
    ensures { result ≡ key_of_relayed client relayed }
{
    of_client(RELAYED, client, address_number(relayed))
}

/// The key of each Allocate success response to a client.
pub fn beginning_key(client: Addr) -> u64
    ensures { result ≡ key_of_beginning client }
{
    of_client(BEGUN, client, 0)
}

/// The key of a request for a permission.
pub fn permission_key(client: Addr, ip: u32) -> u64
    ensures { result ≡ key_of_permission client ip }
{
    of_client(PERMITTED, client, u64::from(ip))
}

/// The key of a request for a channel.
pub fn channel_key(client: Addr, number_of_channel: u16, peer: Addr) -> u64
    ensures { result ≡ key_of_channel client number_of_channel peer }
{
    of_client(
        BOUND + u64::from(number_of_channel),
        client,
        address_number(peer),
    )
}
