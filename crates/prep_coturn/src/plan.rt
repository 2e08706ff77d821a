//! The policy of a configuration.

ghost use Rattle.std.specs.Prelude.{◌≡◌, ◌==◌, false, [], ◌∷◌, ◌++◌, map, if◌then◌else◌, IfOk, IfErr, OnOk};
ghost use Rattle.std.specs.List.{list_any};
ghost use Rattle.prep_coturn.specs.Plans.{IsPlanned, IsRefused, alternative_of, has_tls, ports_of, with_options, is_new, addr_at, listens_at, wire_of, public_of, ranges_of, is_inside, is_inside_at, is_renamed, is_apart, IsAddressFault};

use crate::conf::{Conf, External, Renamed};
use crate::fault::ConfFault;
use audit_model::{Addr, Listed, PortRange};
use std::alloc::{AllocError, Global};

/// The operator's options, in addition to the configuration.
#[derive(Clone, Copy, Debug)]
pub struct Options<'a> {
    pub listening: &'a [u32],
    pub relaying: &'a [u32],
    /// Whether the captures go through `translate`.
    pub is_translated: bool,
}

/// The listen and relay lines of a policy.
#[derive(Debug, Drop)]
pub struct Plan {
    pub listens: Listed<Addr>,
    pub relays: Listed<PortRange>,
}

/// The policy of a configuration, or why there is none. The cost is the number of listen lines, and
/// of relay addresses times `external-ip` lines.
pub fn plan_of(alloc: Global, conf: &Conf, options: &Options<'_>) -> Result<Plan, ConfFault>
    ensures ok { IfOk result (λ plan. IsPlanned plan conf.now options.now) }
    ensures err { IfErr result (λ fault. IsRefused fault conf.now options.now) }
{
    let listening = with_those(alloc, conf.listening.as_slice(), options.listening)?;
    if listening.is_empty() {
        return Err(ConfFault::NoListening);
    }
    let relaying = with_those(alloc, conf.relaying.as_slice(), options.relaying)?;
    if relaying.is_empty() {
        return Err(ConfFault::NoRelaying {
            listening: Listed::from(listening),
        });
    }
    check_external(alloc, conf, &relaying, options.is_translated)?;
    let ports = ports(alloc, conf, listening.len() > 1)?;
    let listens = listens(alloc, &listening, &ports, conf.aux.as_slice())?;
    if conf.min_port > conf.max_port || conf.min_port == 0 {
        return Err(ConfFault::Range);
    }
    if is_any_inside(conf, &relaying, &listens) {
        return Err(ConfFault::Inside);
    }
    let relays = ranges(alloc, conf, &relaying)?;
    Ok(Plan {
        listens: Listed::from(listens),
        relays: Listed::from(relays),
    })
}

/// The addresses of the configuration, and those of the options that it doesn't have.
fn with_those(alloc: Global, said: &[u32], added: &[u32]) -> Result<Vec<u32>, AllocError>
    ensures { IfOk result (λ all. all.items ≡ with_options said.now added.now) }
{
    let mut all = Vec::from_slice(alloc, said)?;
    for ip in added {
        push_new(&mut all, said, *ip)?;
    }
    Ok(all)
}

/// Adds an address unless the configuration has it.
fn push_new(all: &mut Vec<u32>, said: &[u32], ip: u32) -> Result<(), AllocError>
    ensures { OnOk result (all.new.items ≡ all.old.items ++ (if is_new said.now ip then ip ∷ [] else [])) }
{
    if !is_among(said, ip) {
        all.push(ip)?;
    }
    Ok(())
}

fn is_among(ips: &[u32], ip: u32) -> bool
    ensures { result ≡ list_any (λ one. one == ip) ips.now }
{
    ips.iter().any(|one| *one == ip)
}

/// Checks that clients are granted the relay addresses on the wire, unless the captures are
/// translated.
fn check_external(
    alloc: Global,
    conf: &Conf,
    relaying: &[u32],
    is_translated: bool,
) -> Result<(), ConfFault>
    ensures ok { OnOk result (is_translated ≡ false → is_renamed relaying.now conf.now.external ≡ false) }
    ensures err { IfErr result (λ fault. IsAddressFault fault relaying.now conf.now.external is_translated) }
{
    let external = conf.external.as_slice();
    if relaying.len() != 1 {
        if let Some(line) = line_for_one(external) {
            return Err(ConfFault::OneForMany {
                line,
                relaying: relaying.len(),
            });
        }
    }
    if !is_translated && is_any_renamed(external, relaying) {
        let renamed = renamed(alloc, external, relaying)?;
        return Err(ConfFault::NotTranslated {
            line: first_line(renamed.as_slice(), external, relaying),
            renamed,
        });
    }
    Ok(())
}

/// The first `external-ip` line that names no relay address.
fn line_for_one(external: &[External]) -> Option<u64> {
    for one in external {
        if one.wire.is_none() {
            return Some(one.line);
        }
    }
    None
}

/// Whether clients are granted another address for some relay address.
fn is_any_renamed(external: &[External], relaying: &[u32]) -> bool
    ensures { result ≡ is_renamed relaying.now external.now }
{
    relaying
        .iter()
        .any(|wire| has_other_public(external, relaying, *wire))
}

fn has_other_public(external: &[External], relaying: &[u32], wire: u32) -> bool
    ensures { result ≡ is_apart relaying.now external.now wire }
{
    public_address(wire, external, relaying) != wire
}

/// The relay addresses for which clients are granted others.
fn renamed(
    alloc: Global,
    external: &[External],
    relaying: &[u32],
) -> Result<Listed<Renamed>, AllocError> {
    let mut renamed = Vec::new(alloc);
    for wire in relaying {
        let public = public_address(*wire, external, relaying);
        if public != *wire {
            renamed.push(Renamed {
                public,
                wire: *wire,
            })?;
        }
    }
    Ok(Listed::from(renamed))
}

/// The line about the first of them.
fn first_line(renamed: &[Renamed], external: &[External], relaying: &[u32]) -> u64 {
    match renamed.first() {
        Some(first) => line_of(first.wire, external, relaying),
        None => 0,
    }
}

/// The line about a relay address.
fn line_of(wire: u32, external: &[External], relaying: &[u32]) -> u64 {
    let mut line = 0;
    for one in external {
        if on_wire(one, relaying) == wire {
            line = one.line;
        }
    }
    line
}

/// The relay address that an `external-ip` line is for.
fn on_wire(external: &External, relaying: &[u32]) -> u32
    ensures { result ≡ wire_of relaying.now external.now }
{
    match (external.wire, relaying.first()) {
        (Some(wire), _) => wire,
        (None, Some(first)) => *first,
        (None, None) => 0,
    }
}

/// The address that clients are granted for a relay address: by the last line for it, or else the
/// same.
fn public_address(wire: u32, external: &[External], relaying: &[u32]) -> u32
    ensures { result ≡ public_of relaying.now external.now wire }
{
    let mut public = wire;
    for one in external {
        if on_wire(one, relaying) == wire {
            public = one.public;
        }
    }
    public
}

/// The port plus one, or the port that is set.
fn alternative(said: u16, port: u16) -> u16
    ensures { result ≡ alternative_of said port }
{
    if said == 0 {
        port.saturating_add(1)
    } else {
        said
    }
}

/// The ports at which coturn accepts plain UDP.
fn ports(alloc: Global, conf: &Conf, is_many: bool) -> Result<Vec<u16>, AllocError>
    ensures { IfOk result (λ ports. ports.items ≡ ports_of conf.now is_many) }
{
    let with_tls = !conf.no_dtls
        && conf.has_cert
        && conf.has_key
        && conf.tls_port != conf.listening_port;
    let mut ports = Vec::new(alloc);
    ports.push(conf.listening_port)?;
    if with_tls {
        ports.push(conf.tls_port)?;
    }
    if is_many && !conf.no_rfc5780 {
        ports.push(alternative(conf.alt_port, conf.listening_port))?;
        if with_tls {
            ports.push(alternative(conf.alt_tls_port, conf.tls_port))?;
        }
    }
    Ok(ports)
}

/// Adds an address with each of the ports.
fn push_ports(listens: &mut Vec<Addr>, ip: u32, ports: &[u16]) -> Result<(), AllocError>
    ensures { OnOk result (listens.new.items ≡ listens.old.items ++ map (addr_at ip) ports.now) }
{
    for port in ports {
        listens.push(Addr { ip, port: *port })?;
    }
    Ok(())
}

/// Each address with each port, and the others.
fn listens(alloc: Global, ips: &[u32], ports: &[u16], aux: &[Addr]) -> Result<Vec<Addr>, AllocError>
    ensures { IfOk result (λ all. all.items ≡ listens_at ips.now ports.now ++ aux.now) }
{
    let mut listens = Vec::new(alloc);
    for ip in ips {
        push_ports(&mut listens, *ip, ports)?;
    }
    listens.extend_from_slice(aux)?;
    Ok(listens)
}

/// Whether a listening port is inside the relay range.
fn is_any_inside(conf: &Conf, relaying: &[u32], listens: &[Addr]) -> bool
    ensures { result ≡ is_inside conf.now relaying.now listens.now }
{
    listens
        .iter()
        .any(|addr| is_one_inside(conf, relaying, *addr))
}

fn is_one_inside(conf: &Conf, relaying: &[u32], addr: Addr) -> bool
    ensures { result ≡ is_inside_at conf.now relaying.now addr }
{
    is_among(relaying, addr.ip) && conf.min_port <= addr.port && addr.port <= conf.max_port
}

/// The relay range of each relay address, with the address that clients are granted.
fn ranges(alloc: Global, conf: &Conf, relaying: &[u32]) -> Result<Vec<PortRange>, AllocError>
    ensures { IfOk result (λ all. all.items ≡ ranges_of conf.now relaying.now) }
{
    let mut ranges = Vec::new(alloc);
    for wire in relaying {
        ranges.push(PortRange {
            ip: public_address(*wire, conf.external.as_slice(), relaying),
            low: conf.min_port,
            high: conf.max_port,
        })?;
    }
    Ok(ranges)
}
