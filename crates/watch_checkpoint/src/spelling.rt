//! Formats the lines of a checkpoint.

ghost use Rattle.std.specs.Prelude.{◌≡◌, ◌++◌, codes, decimal, IfOk, OnOk, List, ℕ};
ghost use Rattle.std.specs.String.{string_bytes};
ghost use Rattle.hex.specs.Hex.{encode_lower};
ghost use Rattle.audit_model.specs.Addr.{addr_text};
ghost use Rattle.audit_cert.specs.Spelling.{sight_text};
ghost use Rattle.watch_checkpoint.specs.Content.{holder_of, header_content};
ghost use Rattle.watch_checkpoint.specs.Spelling.{ip_text, ends_text, grant_text, came_text, entry_text, start_text, header_text, moment_text};
ghost use Rattle.watch_checkpoint.specs.declared.entry.Entry.TheVariants as entries;

use crate::checkpoint::Header;
use crate::entry::Entry;
use audit_cuts::{Came, Client, Interface};
use audit_expiry::Lease;
use audit_model::{Addr, Pair, SightId};
use audit_rules::Channel;
use itoa::Buffer;
use std::alloc::{AllocError, Global};
use watch_ring::RingFile;

/// Adds a number in decimal.
fn add_number(text: &mut Vec<u8>, number: u64) -> Result<(), AllocError>
    ensures { OnOk result (text.new.items ≡ text.old.items ++ decimal number) }
{
    let mut buffer = Buffer::new();
    text.extend_from_slice(buffer.format(number).as_bytes())
}

/// Formats an address, as `198.51.100.7:40000`.
fn text_of_address(alloc: Global, address: Addr) -> Result<String, AllocError>
    ensures { IfOk result (λ text. string_bytes text ≡ addr_text address) }
{
    format!(in alloc; "{address}")
}

/// Adds an address, as `198.51.100.7:40000`.
fn add_address(alloc: Global, text: &mut Vec<u8>, address: Addr) -> Result<(), AllocError>
    ensures { OnOk result (text.new.items ≡ text.old.items ++ addr_text address) }
{
    let word = text_of_address(alloc, address)?;
    text.extend_from_slice(word.as_bytes())
}

/// Adds an IP address, as `198.51.100.7`.
#[tactic(auto, unfolding(crate::specs::Spelling::ip_text))]
fn add_ip(text: &mut Vec<u8>, ip: u32) -> Result<(), AllocError>
    ensures { OnOk result (text.new.items ≡ text.old.items ++ ip_text ip) }
{
    let [a, b, c, d] = ip.to_be_bytes();
    add_number(text, a as u64)?;
    text.extend_from_slice(b".")?;
    add_number(text, b as u64)?;
    text.extend_from_slice(b".")?;
    add_number(text, c as u64)?;
    text.extend_from_slice(b".")?;
    add_number(text, d as u64)
}

/// Adds bytes in hexadecimal digits.
pub fn add_hex(alloc: Global, text: &mut Vec<u8>, bytes: &[u8]) -> Result<(), AllocError>
    ensures { OnOk result (text.new.items ≡ text.old.items ++ encode_lower bytes.now) }
{
    let word = hex::encode(alloc, bytes)?;
    text.extend_from_slice(word.as_bytes())
}

/// Adds a sighting, as `64.0`.
fn add_sight(text: &mut Vec<u8>, sight: SightId) -> Result<(), AllocError>
    ensures { OnOk result (text.new.items ≡ text.old.items ++ sight_text sight) }
{
    add_number(text, sight.iface as u64)?;
    text.extend_from_slice(b".")?;
    add_number(text, sight.index as u64)
}

/// Adds a sighting and a moment, as `64.0 1500000`.
fn add_came(text: &mut Vec<u8>, came: Came) -> Result<(), AllocError>
    ensures { OnOk result (text.new.items ≡ text.old.items ++ came_text came) }
{
    add_sight(text, came.sight)?;
    text.extend_from_slice(b" ")?;
    add_number(text, came.moment)
}

/// Adds an interface's line without its LF.
#[tactic(auto, unfolding(crate::specs::Spelling::entry_text))]
pub fn add_interface(
    text: &mut Vec<u8>,
    number: u64,
    interface: Interface,
) -> Result<(), AllocError>
    ensures { OnOk result (text.new.items ≡ text.old.items ++ entry_text (entries.Interface number interface)) }
{
    text.extend_from_slice(b"interface ")?;
    add_number(text, number)?;
    text.extend_from_slice(b" base ")?;
    add_number(text, interface.base)?;
    text.extend_from_slice(b" placed ")?;
    add_number(text, interface.placed as u64)
}

/// Adds the addresses of a client.
fn add_ends(alloc: Global, text: &mut Vec<u8>, pair: Pair, relayed: Addr) -> Result<(), AllocError>
    ensures { OnOk result (text.new.items ≡ text.old.items ++ ends_text pair relayed) }
{
    text.extend_from_slice(b"client ")?;
    add_address(alloc, text, pair.client)?;
    text.extend_from_slice(b" listen ")?;
    add_address(alloc, text, pair.listen)?;
    text.extend_from_slice(b" relayed ")?;
    add_address(alloc, text, relayed)
}

/// Adds the user, the transaction id and the end of an allocation.
fn add_grant(
    alloc: Global,
    text: &mut Vec<u8>,
    user: &[u8],
    id: &[u8; 12],
    until: u64,
) -> Result<(), AllocError>
    ensures { OnOk result (text.new.items ≡ text.old.items ++ grant_text user.now id.now until) }
{
    text.extend_from_slice(b" user ")?;
    add_hex(alloc, text, user)?;
    text.extend_from_slice(b" id ")?;
    add_hex(alloc, text, id)?;
    text.extend_from_slice(b" until ")?;
    add_number(text, until)
}

/// Adds a permission's line without its LF.
#[tactic(auto, unfolding(crate::specs::Spelling::entry_text))]
pub fn add_permission(text: &mut Vec<u8>, ip: u32, lease: Lease) -> Result<(), AllocError>
    ensures { OnOk result (text.new.items ≡ text.old.items ++ entry_text (entries.Permission ip lease)) }
{
    text.extend_from_slice(b"permission ")?;
    add_ip(text, ip)?;
    text.extend_from_slice(b" ")?;
    add_number(text, lease.until)
}

/// Adds a channel's line without its LF.
#[tactic(auto, unfolding(crate::specs::Spelling::entry_text))]
pub fn add_channel(
    alloc: Global,
    text: &mut Vec<u8>,
    number: u16,
    channel: Channel,
) -> Result<(), AllocError>
    ensures { OnOk result (text.new.items ≡ text.old.items ++ entry_text (entries.Channel number channel)) }
{
    text.extend_from_slice(b"channel ")?;
    add_number(text, number as u64)?;
    text.extend_from_slice(b" ")?;
    add_address(alloc, text, channel.peer)?;
    text.extend_from_slice(b" ")?;
    add_number(text, channel.lease.until)
}

/// Adds the line of an arrival that waits, without its LF.
#[tactic(auto, unfolding(crate::specs::Spelling::entry_text))]
pub fn add_waits(text: &mut Vec<u8>, came: Came) -> Result<(), AllocError>
    ensures { OnOk result (text.new.items ≡ text.old.items ++ entry_text (entries.Waits came)) }
{
    text.extend_from_slice(b"waits ")?;
    add_came(text, came)
}

/// Adds the line of a departure that is owed, without its LF.
#[tactic(auto, unfolding(crate::specs::Spelling::entry_text))]
pub fn add_owed(text: &mut Vec<u8>, came: Came) -> Result<(), AllocError>
    ensures { OnOk result (text.new.items ≡ text.old.items ++ entry_text (entries.Owed came)) }
{
    text.extend_from_slice(b"owed ")?;
    add_came(text, came)
}

/// Adds a client's line without its LF.
#[tactic(auto, unfolding(crate::specs::Spelling::entry_text))]
pub fn add_client(alloc: Global, text: &mut Vec<u8>, client: &Client) -> Result<(), AllocError>
    ensures { OnOk result (text.new.items ≡ text.old.items ++ entry_text (entries.Client (holder_of client.now))) }
{
    add_ends(alloc, text, client.pair, client.relayed)?;
    add_grant(
        alloc,
        text,
        client.user.as_slice(),
        &client.id,
        client.lease.until,
    )
}

/// Adds a line without its LF.
#[tactic(auto, unfolding(crate::specs::Spelling::entry_text))]
pub fn add_entry(alloc: Global, text: &mut Vec<u8>, entry: &Entry) -> Result<(), AllocError>
    ensures { OnOk result (text.new.items ≡ text.old.items ++ entry_text entry.now) }
{
    match entry {
        Entry::Interface(number, interface) => add_interface(text, *number, *interface),
        Entry::Client(holder) => {
            add_ends(alloc, text, holder.pair, holder.relayed)?;
            add_grant(
                alloc,
                text,
                holder.user.as_slice(),
                &holder.id,
                holder.lease.until,
            )
        }
        Entry::Permission(ip, lease) => add_permission(text, *ip, *lease),
        Entry::Channel(number, channel) => add_channel(alloc, text, *number, *channel),
        Entry::Waits(came) => add_waits(text, *came),
        Entry::Owed(came) => add_owed(text, *came),
    }
}

/// Adds the first moment of the claim and a file, as ` begin 5 file 41 opened 20260714093000`.
fn add_start(text: &mut Vec<u8>, begin: u64, file: RingFile) -> Result<(), AllocError>
    ensures { OnOk result (text.new.items ≡ text.old.items ++ start_text begin file.number file.opened) }
{
    text.extend_from_slice(b" begin ")?;
    add_number(text, begin)?;
    text.extend_from_slice(b" file ")?;
    add_number(text, file.number as u64)?;
    text.extend_from_slice(b" opened ")?;
    add_number(text, file.opened)
}

/// Adds the header's line without its LF.
pub fn add_header(alloc: Global, text: &mut Vec<u8>, header: &Header) -> Result<(), AllocError>
    ensures { OnOk result (text.new.items ≡ text.old.items ++ header_text (header_content header.now)) }
{
    text.extend_from_slice(b"claim policy ")?;
    add_hex(alloc, text, &header.policy)?;
    text.extend_from_slice(b" users ")?;
    add_hex(alloc, text, &header.users)?;
    add_start(text, header.begin, header.file)
}

/// Adds the moment's line without its LF.
pub fn add_moment(text: &mut Vec<u8>, moment: u64) -> Result<(), AllocError>
    ensures { OnOk result (text.new.items ≡ text.old.items ++ moment_text moment) }
{
    text.extend_from_slice(b"moment ")?;
    add_number(text, moment)
}
