//! Writes a checkpoint.

ghost use Rattle.std.specs.Prelude.{◌≡◌, ◌++◌, codes, map, IfOk, OnOk};
ghost use Rattle.watch_checkpoint.specs.declared.entry.Entry.TheVariants as entries;
ghost use Rattle.watch_checkpoint.specs.Content.{content_of, header_content, carried_entries, tenant_of, tenant_entries, numbered, permission_entry, channel_entry, holder_of};
ghost use Rattle.watch_checkpoint.specs.Spelling.{lines_of, clients_lines, digest_line, front_text, body_of, text_of, line};

use crate::checkpoint::{Checkpoint, Header};
use crate::spelling::{
    add_channel, add_client, add_header, add_hex, add_interface, add_moment, add_owed,
    add_permission, add_waits,
};
use audit_cuts::{Came, Carried, Client, Interface};
use audit_expiry::Lease;
use audit_rules::Channel;
use sha2::{Digest, Sha256};
use std::alloc::{AllocError, Global};

/// The first line.
pub const HEADING_LINE: &[u8; 23] = b"turnwatch-checkpoint 1\n";

fn add_interfaces(text: &mut Vec<u8>, interfaces: &[Interface]) -> Result<(), AllocError>
    ensures { OnOk result (text.new.items ≡ text.old.items ++ lines_of (numbered 0 interfaces.now)) }
{
    let mut number = 0u64;
    'interfaces: for interface in interfaces {
        add_interface(text, number, *interface)?;
        text.extend_from_slice(b"\n")?;
        number += 1;
    }
    Ok(())
}

fn add_permissions(text: &mut Vec<u8>, permissions: &[(u32, Lease)]) -> Result<(), AllocError>
    ensures { OnOk result (text.new.items ≡ text.old.items ++ lines_of (map permission_entry permissions.now)) }
{
    'permissions: for (ip, lease) in permissions {
        add_permission(text, *ip, *lease)?;
        text.extend_from_slice(b"\n")?;
    }
    Ok(())
}

fn add_channels(
    alloc: Global,
    text: &mut Vec<u8>,
    channels: &[(u16, Channel)],
) -> Result<(), AllocError>
    ensures { OnOk result (text.new.items ≡ text.old.items ++ lines_of (map channel_entry channels.now)) }
{
    'channels: for (number, channel) in channels {
        add_channel(alloc, text, *number, *channel)?;
        text.extend_from_slice(b"\n")?;
    }
    Ok(())
}

/// Adds a client's line, and then those of its permissions and channels.
fn add_tenant(alloc: Global, text: &mut Vec<u8>, client: &Client) -> Result<(), AllocError>
    ensures { OnOk result (text.new.items ≡ text.old.items ++ lines_of (tenant_entries (tenant_of client.now))) }
{
    add_client(alloc, text, client)?;
    text.extend_from_slice(b"\n")?;
    add_permissions(text, client.permissions.as_slice())?;
    add_channels(alloc, text, client.channels.as_slice())
}

fn add_tenants(alloc: Global, text: &mut Vec<u8>, clients: &[Client]) -> Result<(), AllocError>
    ensures { OnOk result (text.new.items ≡ text.old.items ++ clients_lines clients.now) }
{
    'clients: for client in clients {
        add_tenant(alloc, text, client)?;
    }
    Ok(())
}

fn add_waiting(text: &mut Vec<u8>, waiting: &[Came]) -> Result<(), AllocError>
    ensures { OnOk result (text.new.items ≡ text.old.items ++ lines_of (map entries.Waits waiting.now)) }
{
    'waiting: for came in waiting {
        add_waits(text, *came)?;
        text.extend_from_slice(b"\n")?;
    }
    Ok(())
}

fn add_all_owed(text: &mut Vec<u8>, owed: &[Came]) -> Result<(), AllocError>
    ensures { OnOk result (text.new.items ≡ text.old.items ++ lines_of (map entries.Owed owed.now)) }
{
    'owed: for came in owed {
        add_owed(text, *came)?;
        text.extend_from_slice(b"\n")?;
    }
    Ok(())
}

/// Adds the lines after the moment's.
fn add_carried(alloc: Global, text: &mut Vec<u8>, carried: &Carried) -> Result<(), AllocError>
    ensures { OnOk result (text.new.items ≡ text.old.items ++ lines_of (carried_entries carried.now)) }
{
    add_interfaces(text, carried.interfaces.as_slice())?;
    add_tenants(alloc, text, carried.clients.as_slice())?;
    add_waiting(text, carried.waiting.as_slice())?;
    add_all_owed(text, carried.owed.as_slice())
}

/// The first three lines.
fn front(alloc: Global, header: &Header, moment: u64) -> Result<Vec<u8>, AllocError>
    ensures { IfOk result (λ text. text.items ≡ front_text (header_content header.now) moment) }
{
    let mut text = Vec::new(alloc);
    text.extend_from_slice(HEADING_LINE)?;
    add_header(alloc, &mut text, header)?;
    text.extend_from_slice(b"\n")?;
    add_moment(&mut text, moment)?;
    text.extend_from_slice(b"\n")?;
    Ok(text)
}

/// All lines except the last one.
fn body(alloc: Global, checkpoint: &Checkpoint) -> Result<Vec<u8>, AllocError>
    ensures { IfOk result (λ text. text.items ≡ body_of (content_of checkpoint.now)) }
{
    let mut text = front(alloc, &checkpoint.header, checkpoint.carried.moment)?;
    add_carried(alloc, &mut text, &checkpoint.carried)?;
    Ok(text)
}

/// The last line of a text: the SHA-256 of the bytes before it.
pub fn last_line(alloc: Global, text: &[u8]) -> Result<Vec<u8>, AllocError>
    ensures { IfOk result (λ line. line.items ≡ digest_line text.now) }
{
    let digest = Sha256::digest(text);
    let mut line = Vec::new(alloc);
    line.extend_from_slice(b"digest ")?;
    add_hex(alloc, &mut line, &digest)?;
    line.extend_from_slice(b"\n")?;
    Ok(line)
}

/// The one text of a checkpoint: lines that end with an LF, with decimal numbers and lower-case
/// hexadecimal digits. It takes time and memory in proportion to its length, at most about 170
/// bytes and twice the user for a client, and 70 for each other line.
pub fn write(alloc: Global, checkpoint: &Checkpoint) -> Result<Vec<u8>, AllocError>
    ensures { IfOk result (λ text. text.items ≡ text_of (content_of checkpoint.now)) }
{
    let mut text = body(alloc, checkpoint)?;
    let line = last_line(alloc, &text)?;
    text.extend_from_slice(&line)?;
    Ok(text)
}
