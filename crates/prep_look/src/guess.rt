//! Guesses a policy from the captures, if none is named.

use crate::survey::Survey;
use audit_model::{Addr, Policy, PolicyFault, PolicyFaultKind, read_policy};
use std::alloc::{AllocError, AllocFailed, Global};
use std::collections::BTreeMap;
use std::fmt;
use std::fmt::Write;

/// Why no policy can be guessed.
#[derive(Clone, Copy, Debug, PartialEq, Eq)]
pub enum GuessFault {
    /// No address sends responses.
    NoAnswer,
    /// The addresses with responses make no policy.
    NoPolicy,
    /// Out of memory.
    Memory,
}

/// The text for standard error.
impl fmt::Display for GuessFault {
    fn fmt<W: fmt::Write>(&self, f: &mut fmt::Formatter<W>) -> fmt::Result {
        f.write_str(match self {
            GuessFault::NoAnswer => { "no listen address is seen: no STUN response by UDP" }
            GuessFault::NoPolicy => "what answers makes no policy: say it by --policy",
            GuessFault::Memory => "out of memory",
        })
    }
}

impl From<AllocError> for GuessFault {
    fn from(_error: AllocError) -> GuessFault {
        GuessFault::Memory
    }
}

impl<T: Drop> From<AllocFailed<T>> for GuessFault {
    fn from(_failed: AllocFailed<T>) -> GuessFault {
        GuessFault::Memory
    }
}

impl From<PolicyFault> for GuessFault {
    fn from(fault: PolicyFault) -> GuessFault {
        match fault.kind {
            PolicyFaultKind::Memory => GuessFault::Memory,
            _ => GuessFault::NoPolicy,
        }
    }
}

/// A guessed policy.
#[derive(Debug, Drop)]
pub struct Guess {
    /// With the addresses on the wire.
    pub policy: Policy,
    /// The same with the addresses that clients were granted, as a text.
    pub suggested: String,
}

/// The default ports (RFC 8656, section 7.2).
const LEAST_PORT: u16 = 49_152;

/// The ports of an address from which the server relays, up to 65535.
#[derive(Clone, Copy)]
struct Range {
    wire: u32,
    granted: u32,
    low: u16,
}

/// Guesses that the listen addresses are those that grant allocations, or else those that send
/// other TURN responses, or else those that respond to Binding, and that the server relays from the
/// addresses that it grants.
pub fn guess_policy(alloc: Global, survey: &Survey) -> Result<Guess, GuessFault> {
    let listen = listening(alloc, survey)?;
    if listen.is_empty() {
        return Err(GuessFault::NoAnswer);
    }
    let ranges = ranges_of(alloc, survey)?;
    let mut on_wire = head_of(alloc, &listen)?;
    let mut suggested = head_of(alloc, &listen)?;
    for range in &ranges {
        write_range(&mut on_wire, range.wire, range.low)?;
        write_range(&mut suggested, range.granted, range.low)?;
    }
    let policy = read_policy(alloc, on_wire.as_bytes())?;
    Ok(Guess { policy, suggested })
}

fn listening(alloc: Global, survey: &Survey) -> Result<Vec<Addr>, AllocError> {
    let mut all = Vec::new(alloc);
    let mut relaying = Vec::new(alloc);
    let mut granting = Vec::new(alloc);
    for (addr, answers) in survey.answers.iter() {
        all.push(*addr)?;
        if answers.other > 0 {
            relaying.push(*addr)?;
        }
        if answers.allocate > 0 {
            granting.push(*addr)?;
        }
    }
    if !granting.is_empty() {
        return Ok(granting);
    }
    if relaying.is_empty() {
        Ok(all)
    } else {
        Ok(relaying)
    }
}

/// The ranges by their addresses on the wire.
fn ranges_of(alloc: Global, survey: &Survey) -> Result<Vec<Range>, AllocError> {
    let mut ranges: BTreeMap<u32, Range> = BTreeMap::new(alloc);
    for one in &survey.granted {
        let granted = one.relayed.ip;
        let place = survey
            .aliases
            .binary_search_by_key(&granted, |alias| alias.public);
        let wire = match place {
            Ok(place) => match survey.aliases.get(place) {
                Some(alias) => alias.private,
                None => granted,
            },
            Err(_) => granted,
        };
        let range = match ranges.get(&wire) {
            Some(range) => Range {
                wire,
                granted: if granted == wire {
                    range.granted
                } else {
                    granted
                },
                low: range.low.min(one.relayed.port),
            },
            None => Range {
                wire,
                granted,
                low: LEAST_PORT.min(one.relayed.port),
            },
        };
        ranges.insert(wire, range)?;
    }
    let mut all = Vec::new(alloc);
    for range in ranges.values() {
        all.push(*range)?;
    }
    Ok(all)
}

fn head_of(alloc: Global, listen: &[Addr]) -> Result<String, AllocError> {
    let mut text = String::from_str(alloc, "turnaudit-policy 1\n")?;
    for addr in listen {
        write!(text, "listen {addr}\n")?;
    }
    Ok(text)
}

fn write_range(text: &mut String, ip: u32, low: u16) -> Result<(), AllocError> {
    let [a, b, c, d] = ip.to_be_bytes();
    write!(text, "relay {a}.{b}.{c}.{d}:{low}-65535\n")
}
