//! The lines of relayed addresses that were granted.

ghost use Rattle.std.specs.Prelude.{◌≡◌, IfOk, string_bytes};
ghost use Rattle.std.specs.List.{count_by};
ghost use Rattle.audit_model.specs.Policy.{relays};
ghost use Rattle.prep_look.specs.PolicyLines.{counts_text, granted_line, granted_text, last_port, ports_text};

use crate::granted_address::{GrantedAddress, split_ip};
use crate::ip::Ip;
use audit_model::Policy;
use std::alloc::{AllocError, Global};

/// How many of these addresses are on the wire.
fn count_on_wire(granted: &[GrantedAddress]) -> u64
    ensures { result ≡ count_by (λ one. one.is_on_wire) granted.now }
{
    let mut count = 0u64;
    for one in granted {
        if one.is_on_wire {
            count += 1;
        }
    }
    count
}

/// How many of these addresses the policy has.
fn count_in_policy(granted: &[GrantedAddress], policy: &Policy) -> u64
    ensures { result ≡ count_by (λ one. relays policy.now one.relayed) granted.now }
{
    let mut count = 0u64;
    for one in granted {
        if policy.relays(one.relayed) {
            count += 1;
        }
    }
    count
}

/// The port of the last address, or this port.
fn last_port(granted: &[GrantedAddress], port: u16) -> u16
    ensures { result ≡ last_port port granted.now }
{
    let mut last = port;
    for one in granted {
        last = one.relayed.port;
    }
    last
}

/// The text of an IP address and its granted ports.
fn text_of_ports(
    alloc: Global,
    first: &GrantedAddress,
    granted: &[GrantedAddress],
) -> Result<String, AllocError>
    ensures { IfOk result (λ text. string_bytes text ≡ ports_text first.now granted.now) }
{
    let ip = Ip(first.relayed.ip);
    let from = first.relayed.port;
    let to = last_port(granted, from);
    let ports = granted.len();
    format!(in alloc; "told {ip} ports {ports} from {from} to {to}")
}

/// The text of how many of them are on the wire, and how many the policy has.
fn text_of_counts(
    alloc: Global,
    granted: &[GrantedAddress],
    policy: &Policy,
) -> Result<String, AllocError>
    ensures { IfOk result (λ text. string_bytes text ≡ counts_text policy.now granted.now) }
{
    let on_wire = count_on_wire(granted);
    let in_policy = count_in_policy(granted, policy);
    format!(in alloc; " on-wire {on_wire} in-policy {in_policy}\n")
}

/// The line of an IP address with these relayed addresses, in the order of ports.
fn line_of(
    alloc: Global,
    first: &GrantedAddress,
    granted: &[GrantedAddress],
    policy: &Policy,
) -> Result<String, AllocError>
    ensures { IfOk result (λ line. string_bytes line ≡ granted_line policy.now first.now granted.now) }
{
    let mut line = text_of_ports(alloc, first, granted)?;
    line.push_str(text_of_counts(alloc, granted, policy)?.as_str())?;
    Ok(line)
}

/// The lines of all IP addresses.
pub(crate) fn lines_of_granted(
    alloc: Global,
    granted: &[GrantedAddress],
    policy: &Policy,
) -> Result<String, AllocError>
    ensures { IfOk result (λ text. string_bytes text ≡ granted_text policy.now granted.now) }
{
    let mut text = String::new(alloc);
    let mut rest = granted;
    for _ in 0..granted.len() {
        let Some((first, _)) = rest.split_first() else {
            return Ok(text);
        };
        let (of_ip, others) = split_ip(rest, first.relayed.ip);
        text.push_str(line_of(alloc, first, of_ip, policy)?.as_str())?;
        rest = others;
    }
    Ok(text)
}
