//! Keys of what an arrival has in common with each departure that it may have caused.

ghost use Rattle.std.specs.Prelude.{◌≡◌};
ghost use Rattle.audit_stun.specs.Parts.{parts_of};
ghost use Rattle.audit_faults.specs.ArrivalKeys.{exchange_key as key_of_exchange, sent_key as key_of_sent, sent_in_channel_key as key_of_sent_in_channel, delivered_key as key_of_delivered, delivered_in_channel_key as key_of_delivered_in_channel, owned_key as key_of_owned};

use crate::keyed::{digest, transaction_key};
use crate::lease_keys::{address_number, mixed, of_client};
use audit_model::Addr;
use audit_stun::Message;

/// Kinds of keys.
const EXCHANGE: u64 = 1;

const SENT: u64 = 2;

const SENT_IN_CHANNEL: u64 = 3;

const DELIVERED: u64 = 4;

const DELIVERED_IN_CHANNEL: u64 = 5;

/// The key of a request or a response: its 5-tuple and its transaction.
pub fn exchange_key(client: Addr, listen: Addr, said: &Message<'_>) -> u64
    ensures { result ≡ key_of_exchange client listen (parts_of said.now).tid }
{
    let ends = of_client(EXCHANGE, client, address_number(listen));
    mixed(ends, transaction_key(said))
}

/// The key of data with its owner: the client that sent it, or the relayed address that a peer sent
/// it to.
pub fn owned_key(key: u64, owner: u64) -> u64
    ensures { result ≡ key_of_owned key owner }
{
    mixed(key, owner)
}

/// The key of a Send indication's data for a peer.
pub fn sent_key(peer: Addr, data: &[u8]) -> u64
    ensures { result ≡ key_of_sent peer data.now }
{
    of_client(SENT, peer, digest(data))
}

/// The key of the data of a client's ChannelData.
pub fn sent_in_channel_key(data: &[u8]) -> u64
    ensures { result ≡ key_of_sent_in_channel data.now }
{
    mixed(SENT_IN_CHANNEL, digest(data))
}

/// The key of a peer's data for a Data indication.
pub fn delivered_key(peer: Addr, data: &[u8]) -> u64
    ensures { result ≡ key_of_delivered peer data.now }
{
    of_client(DELIVERED, peer, digest(data))
}

/// The key of a peer's data for ChannelData.
pub fn delivered_in_channel_key(data: &[u8]) -> u64
    ensures { result ≡ key_of_delivered_in_channel data.now }
{
    mixed(DELIVERED_IN_CHANNEL, digest(data))
}
