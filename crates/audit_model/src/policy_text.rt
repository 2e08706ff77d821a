//! The policy text: a heading, and then a setting a line.

ghost use Rattle.std.specs.Prelude.{◌≡◌, ◌==◌, ◌*◌, ◌^◌, ◌<◌, MatchResult, Ok};
ghost use Rattle.std.specs.List.{list_any};
ghost use Rattle.audit_text.specs.Reading.{UnlessMemory};
ghost use Rattle.audit_model.specs.PolicyFault.{is_memory};
ghost use Rattle.audit_model.specs.PortRange.{is_in, meet};
ghost use Rattle.audit_model.specs.PolicyLines.{listen_of, range_of, interface_of, tolerance_of};

use crate::address::{Addr, read_ip, read_port};
use crate::listed::Listed;
use crate::policy::{InterfaceSkew, Policy, PortRange};
use crate::policy_fault::PolicyFaultKind;
use audit_text::{Lines, TokenFault, both, halves, number};
use std::alloc::Global;
use std::marker::Model;

const HEADING: &[u8; 18] = b"turnaudit-policy 1";

/// The heading after which a line may set the skew of an interface.
const SECOND_HEADING: &[u8; 18] = b"turnaudit-policy 2";

/// The most listen lines of a policy, and the most relay lines.
const MAX_ENDPOINTS: usize = 64;

/// The most interfaces that have a skew of their own.
const MAX_INTERFACES: usize = 1_024;

/// The greatest skew, in microseconds.
const MAX_SKEW_US: u64 = 60_000_000;

/// The greatest grace and hold, in milliseconds.
const MAX_MS: u64 = 600_000;

const NANOSECONDS_IN_US: u64 = 1_000;

const NANOSECONDS_IN_MS: u64 = 1_000_000;

const DEFAULT_SKEW: u64 = 500 * NANOSECONDS_IN_US;

const DEFAULT_GRACE: u64 = 1_000 * NANOSECONDS_IN_MS;

const DEFAULT_HOLD: u64 = 2_000 * NANOSECONDS_IN_MS;

/// The settings of the lines so far.
#[derive(Debug, Drop)]
pub struct PolicyDraft {
    listen: Listed<Addr>,
    relay: Listed<PortRange>,
    skew: Option<u64>,
    skews: Listed<InterfaceSkew>,
    grace: Option<u64>,
    hold: Option<u64>,
    /// Whether the heading is there.
    headed: bool,
    /// Whether it is the heading after which a line may set the skew of an interface.
    by_interface: bool,
}

impl Model for PolicyDraft {
    ghost use Rattle.audit_model.specs.PolicyLines.{Said};

    ghost Value = { Said };

    ghost view = { λ draft. record {
      listen = draft.listen;
      relay = draft.relay;
      skew = draft.skew;
      skews = draft.skews;
      grace = draft.grace;
      hold = draft.hold;
      headed = draft.headed;
      by_interface = draft.by_interface;
    } };
}

/// Parses a range as in `192.0.2.1:49152-65535`.
#[tactic(auto, unfolding(crate::specs::PolicyLines::range_of))]
fn read_range(word: &[u8]) -> Result<PortRange, TokenFault>
    ensures { result ≡ range_of word.now }
{
    let (ip, ports) = halves(word, b':')?;
    let (low, high) = halves(ports, b'-')?;
    let (ip, (low, high)) = both(read_ip(ip), both(read_port(low), read_port(high)))?;
    if low == 0 || low > high {
        return Err(TokenFault::Number);
    }
    Ok(PortRange { ip, low, high })
}

/// Parses a listen address, whose port isn't 0.
#[tactic(auto, unfolding(crate::specs::PolicyLines::listen_of))]
fn read_listen(word: &[u8]) -> Result<Addr, TokenFault>
    ensures { result ≡ listen_of word.now }
{
    let addr = Addr::read(word)?;
    if addr.port == 0 {
        return Err(TokenFault::Number);
    }
    Ok(addr)
}

/// Parses a length of time of at most `most` units, in nanoseconds, if there is none yet.
#[tactic(auto, unfolding(crate::specs::PolicyLines::tolerance_of))]
fn read_tolerance(
    earlier: Option<u64>,
    word: &[u8],
    most: u64,
    unit: u64,
) -> Result<Option<u64>, PolicyFaultKind>
    requires { most * unit < 2 ^ 64 }
    ensures { result ≡ tolerance_of earlier word.now most unit }
{
    if earlier.is_some() {
        return Err(PolicyFaultKind::Line);
    }
    let units = number(word, u64::MAX)?;
    if units > most {
        return Err(PolicyFaultKind::Limit);
    }
    Ok(Some(units * unit))
}

/// Parses an interface, as in a `SightId`.
fn read_interface(word: &[u8]) -> Result<u32, TokenFault>
    ensures { result ≡ interface_of word.now }
{
    match number(word, 4_294_967_295) {
        Ok(value) => Ok(value as u32),
        Err(fault) => Err(fault),
    }
}

/// Whether an address is one of the range.
fn meets_listen(listen: &[Addr], range: &PortRange) -> bool
    ensures { result ≡ list_any (λ addr. is_in addr range.now) listen.now }
{
    listen.iter().any(|addr| range.contains(*addr))
}

/// Whether a range has an address in common with another one.
fn meets_relay(relay: &[PortRange], range: &PortRange) -> bool
    ensures { result ≡ list_any (λ other. meet range.now other) relay.now }
{
    relay.iter().any(|other| range.meets(other))
}

/// Whether one of the skews is of the interface.
fn has_skew(skews: &[InterfaceSkew], iface: u32) -> bool
    ensures { result ≡ list_any (λ own. own.iface == iface) skews.now }
{
    skews.iter().any(|own| own.iface == iface)
}

impl PolicyDraft {
    ghost use Rattle.audit_model.specs.PolicyLines.{after_listen, after_relay, after_skew, after_setting, after_word, meets_said, is_said_of};
    ghost use Rattle.audit_model.specs.PolicyText.{nothing_said, after, after_heading, policy_said};

    pub fn new(alloc: Global) -> PolicyDraft
        ensures { result ≡ nothing_said }
    {
        PolicyDraft {
            listen: Listed::new(alloc),
            relay: Listed::new(alloc),
            skew: None,
            skews: Listed::new(alloc),
            grace: None,
            hold: None,
            headed: false,
            by_interface: false,
        }
    }

    /// Whether the range overlaps an endpoint of an earlier line.
    fn meets(&self, range: &PortRange) -> bool
        ensures { result ≡ meets_said self.now range.now }
    {
        meets_listen(self.listen.as_slice(), range) || meets_relay(self.relay.as_slice(), range)
    }

    #[tactic(auto, unfolding(crate::specs::PolicyLines::after_listen))]
    fn add_listen(&mut self, value: &[u8]) -> Result<(), PolicyFaultKind>
        ensures { MatchResult result (λ _. after_listen self.old value.now ≡ Ok self.new)
            (λ fault. UnlessMemory is_memory fault (after_listen self.old value.now)) }
    {
        let addr = read_listen(value)?;
        if self.listen.len() >= MAX_ENDPOINTS {
            return Err(PolicyFaultKind::Limit);
        }
        if self.meets(&PortRange::from(addr)) {
            return Err(PolicyFaultKind::Overlap);
        }
        self.listen.push(addr)?;
        Ok(())
    }

    #[tactic(auto, unfolding(crate::specs::PolicyLines::after_relay))]
    fn add_relay(&mut self, value: &[u8]) -> Result<(), PolicyFaultKind>
        ensures { MatchResult result (λ _. after_relay self.old value.now ≡ Ok self.new)
            (λ fault. UnlessMemory is_memory fault (after_relay self.old value.now)) }
    {
        let range = read_range(value)?;
        if self.relay.len() >= MAX_ENDPOINTS {
            return Err(PolicyFaultKind::Limit);
        }
        if self.meets(&range) {
            return Err(PolicyFaultKind::Overlap);
        }
        self.relay.push(range)?;
        Ok(())
    }

    /// Whether an earlier line has the skew of the interface that the word names.
    fn is_said_of(&self, word: &[u8]) -> bool
        ensures { result ≡ is_said_of self.now (interface_of word.now) }
    {
        match read_interface(word) {
            Ok(iface) => has_skew(self.skews.as_slice(), iface),
            Err(_) => false,
        }
    }

    /// Adds the skew of an interface, `IFACE N` with N in microseconds.
    #[tactic(auto, unfolding(crate::specs::PolicyLines::after_skew))]
    fn add_skew(&mut self, value: &[u8]) -> Result<(), PolicyFaultKind>
        ensures { MatchResult result (λ _. after_skew self.old value.now ≡ Ok self.new)
            (λ fault. UnlessMemory is_memory fault (after_skew self.old value.now)) }
    {
        let (iface, skew) = halves(value, b' ')?;
        if self.is_said_of(iface) {
            return Err(PolicyFaultKind::Line);
        }
        let (iface, units) = both(read_interface(iface), number(skew, u64::MAX))?;
        if units > MAX_SKEW_US || self.skews.len() >= MAX_INTERFACES {
            return Err(PolicyFaultKind::Limit);
        }
        let skew = units * NANOSECONDS_IN_US;
        self.skews.push(InterfaceSkew { iface, skew })?;
        Ok(())
    }

    /// Adds a setting.
    #[tactic(auto, unfolding(crate::specs::PolicyLines::after_setting))]
    fn add_setting(&mut self, word: &[u8], value: &[u8]) -> Result<(), PolicyFaultKind>
        ensures { MatchResult result (λ _. after_setting self.old word.now value.now ≡ Ok self.new)
            (λ fault. UnlessMemory is_memory fault (after_setting self.old word.now value.now)) }
    {
        if word == b"skew-us".as_slice() {
            self.skew = read_tolerance(self.skew, value, MAX_SKEW_US, NANOSECONDS_IN_US)?;
        } else if word == b"grace-ms".as_slice() {
            self.grace = read_tolerance(self.grace, value, MAX_MS, NANOSECONDS_IN_MS)?;
        } else if word == b"hold-ms".as_slice() {
            self.hold = read_tolerance(self.hold, value, MAX_MS, NANOSECONDS_IN_MS)?;
        } else {
            return Err(PolicyFaultKind::Line);
        }
        Ok(())
    }

    /// Adds a line after the heading.
    #[tactic(auto, unfolding(crate::specs::PolicyLines::after_word))]
    fn add_line(&mut self, line: &[u8]) -> Result<(), PolicyFaultKind>
        ensures { MatchResult result (λ _. after_word self.old line.now ≡ Ok self.new)
            (λ fault. UnlessMemory is_memory fault (after_word self.old line.now)) }
    {
        let (word, value) = halves(line, b' ')?;
        if word == b"listen".as_slice() {
            self.add_listen(value)
        } else if word == b"relay".as_slice() {
            self.add_relay(value)
        } else if self.by_interface && word == b"skew-of".as_slice() {
            self.add_skew(value)
        } else {
            self.add_setting(word, value)
        }
    }

    /// The policy of the lines.
    pub fn policy(self) -> Policy
        ensures { result ≡ policy_said self }
    {
        Policy {
            listen: self.listen,
            relay: self.relay,
            skew: self.skew.unwrap_or(DEFAULT_SKEW),
            skews: self.skews,
            grace: self.grace.unwrap_or(DEFAULT_GRACE),
            hold: self.hold.unwrap_or(DEFAULT_HOLD),
        }
    }

    /// Adds the heading, of either version.
    fn add_heading(&mut self, line: &[u8]) -> Result<(), PolicyFaultKind>
        ensures { MatchResult result (λ _. after_heading self.old line.now ≡ Ok self.new)
            (λ fault. UnlessMemory is_memory fault (after_heading self.old line.now)) }
    {
        if line == SECOND_HEADING.as_slice() {
            self.by_interface = true;
        } else if line != HEADING.as_slice() {
            return Err(PolicyFaultKind::Line);
        }
        self.headed = true;
        Ok(())
    }

    /// Adds a line: the heading first.
    #[tactic(auto, unfolding(crate::specs::PolicyText::after))]
    fn add(&mut self, line: &[u8]) -> Result<(), PolicyFaultKind>
        ensures { MatchResult result (λ _. after self.old line.now ≡ Ok self.new)
            (λ fault. UnlessMemory is_memory fault (after self.old line.now)) }
    {
        if self.headed {
            return self.add_line(line);
        }
        self.add_heading(line)
    }
}

impl Lines for PolicyDraft {
    ghost use Rattle.audit_model.specs.PolicyLines.{Said};
    ghost use Rattle.audit_model.specs.PolicyText.{Says, after, unended, overlong, lacks};

    type Kind = PolicyFaultKind;

    ghost said = { Said };

    ghost says = { Says };

    ghost after = { after };

    ghost unended = { unended };

    ghost overlong = { overlong };

    ghost lacks = { lacks };

    ghost is_memory = { is_memory };

    fn take_line(&mut self, line: &[u8]) -> Result<(), PolicyFaultKind> {
        self.add(line)
    }

    fn unended(&self, _rest: &[u8]) -> PolicyFaultKind {
        PolicyFaultKind::Line
    }

    fn overlong(&self) -> PolicyFaultKind {
        PolicyFaultKind::Line
    }

    fn lacks(&self) -> Option<PolicyFaultKind> {
        if !self.headed {
            Some(PolicyFaultKind::Line)
        } else if self.listen.is_empty() {
            Some(PolicyFaultKind::Missing)
        } else {
            None
        }
    }

    fn no_memory() -> PolicyFaultKind {
        PolicyFaultKind::Memory
    }
}
