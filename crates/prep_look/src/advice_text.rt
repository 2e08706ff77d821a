//! Lines of advice as text.

use crate::advice::{Advice, Ended, Relaying};
use crate::granted_address::Alias;
use crate::interface_name::InterfaceName;
use crate::ip::Ip;
use crate::losses::Losses;
use crate::survey::Closed;
use prep_cut::ReasonKind;
use std::fmt;

impl fmt::Display for Advice {
    fn fmt<W: fmt::Write>(&self, f: &mut fmt::Formatter<W>) -> fmt::Result {
        match self {
            Advice::NoStatistics { interface } => write_no_statistics(f, *interface),
            Advice::StepsBack { interface, most } => write_steps_back(f, *interface, *most),
            Advice::Fragments(count) => write!(
                f,
                "{count} fragments with an address of the service, which an audit refuses (V1): reassemble"
            ),
            Advice::Truncated(count) => write!(
                f,
                "{count} datagrams are cut by a snapshot length, which an audit refuses (V3): capture without one (-s 0)"
            ),
            Advice::Merged {
                frames,
                channel_data,
            } => write!(
                f,
                "{frames} frames are longer than an Ethernet frame and {channel_data} ChannelData have more behind their data: offloads merged them (ethtool -K IF gro off gso off tso off)"
            ),
            Advice::Translate(alias) => write_translate(f, alias),
            Advice::Exclude { kind, lines } => write_exclude(f, *kind, *lines),
            Advice::Released(relaying) => write_released(f, relaying),
            Advice::Clocks {
                arrival,
                departure,
                by,
                skew,
            } => write_clocks(f, (*arrival, *departure), *by, *skew),
            Advice::Hold { longest } => write_hold(f, *longest),
            Advice::Lost(losses) => write_lost(f, losses),
            Advice::Restarted(closed) => write_restarted(f, closed),
            Advice::Stopped(closed) => write_stopped(f, closed),
            Advice::Ended(ended) => write_ended(f, ended),
        }
    }
}

fn write_no_statistics<W: fmt::Write>(f: &mut fmt::Formatter<W>, interface: u32) -> fmt::Result {
    let interface = InterfaceName(interface);
    write!(
        f,
        "{interface} has no statistics: its drops aren't recorded (a ring buffer, a dumpcap that was killed, mergecap or editcap)"
    )
}

fn write_steps_back<W: fmt::Write>(
    f: &mut fmt::Formatter<W>,
    interface: u32,
    most: u64,
) -> fmt::Result {
    let microseconds = most / 1_000;
    let skew = most.saturating_add(1_999) / 2_000;
    let interface = InterfaceName(interface);
    write!(
        f,
        "the clock of {interface} steps back by {microseconds} us: skew-us {skew} or more, or S4 is reported"
    )
}

fn write_translate<W: fmt::Write>(f: &mut fmt::Formatter<W>, alias: &Alias) -> fmt::Result {
    let ports = alias.ports;
    let public = Ip(alias.public);
    let private = Ip(alias.private);
    write!(
        f,
        "{ports} granted addresses of {public} are not on the wire, and {private} uses their ports: "
    )?;
    write!(
        f,
        "translate --external-ip {public}/{private}, policy relay {public}"
    )
}

fn write_exclude<W: fmt::Write>(
    f: &mut fmt::Formatter<W>,
    kind: ReasonKind,
    lines: u64,
) -> fmt::Result {
    let what = what_is_excluded(kind);
    write!(f, "{lines} {what}: cut")
}

fn what_is_excluded(kind: ReasonKind) -> &'static str {
    match kind {
        ReasonKind::Client => "clients have allocations from before the capture",
        ReasonKind::Answer => "clients were answered what they asked before the capture",
        ReasonKind::AddressOf => "relayed addresses are of clients from before the capture",
        ReasonKind::AddressTold => "relayed addresses were granted over TCP or IPv6",
        ReasonKind::Address => {
            "relayed addresses were granted to no UDP client: clients by TLS, or another program on the relay range"
        }
        ReasonKind::Released => "clients were relayed for after a Refresh with LIFETIME 0",
        ReasonKind::Dtls => "clients speak DTLS",
        ReasonKind::Inner => "clients relay to a relayed address of the server",
        ReasonKind::Inside => "pairs of the server's own addresses are on the wire (V2)",
        ReasonKind::Edge => "lines are of what arrived before the capture",
        ReasonKind::BeforeSince | ReasonKind::AfterUntil => "lines are outside of stated moments",
    }
}

/// Writes the line about clocks. Of the interfaces of arrival and departure, the later one is
/// assumed to have the wrong clock.
fn write_clocks<W: fmt::Write>(
    f: &mut fmt::Formatter<W>,
    interfaces: (u16, u16),
    by: u64,
    skew: u64,
) -> fmt::Result {
    let (arrival, departure) = interfaces;
    let odd = arrival.max(departure);
    let microseconds = by / 1_000;
    let (arrival, departure) = (
        InterfaceName(u32::from(arrival)),
        InterfaceName(u32::from(departure)),
    );
    write!(
        f,
        "{departure} leaves {microseconds} us before {arrival} arrives: skew-of {odd} {skew}"
    )
}

fn write_hold<W: fmt::Write>(f: &mut fmt::Formatter<W>, longest: u64) -> fmt::Result {
    let milliseconds = longest / 1_000_000;
    let hold = milliseconds.saturating_mul(5) / 4;
    let hold = hold.saturating_add(1);
    write!(
        f,
        "the server takes up to {milliseconds} ms: hold-ms {hold}"
    )
}

fn write_lost<W: fmt::Write>(f: &mut fmt::Formatter<W>, losses: &Losses) -> fmt::Result {
    let count = losses.count;
    let first = losses.first;
    let from = losses.quiet_from;
    let to = losses.quiet_to;
    let since = from.saturating_add(1);
    write!(
        f,
        "{count} allocations are lost before their end, the first by {first}: if the server was restarted, "
    )?;
    write!(
        f,
        "most likely between {from} and {to}: cut --until {from}, and cut --since {since} --from-start"
    )
}

fn write_restarted<W: fmt::Write>(f: &mut fmt::Formatter<W>, closed: &Closed) -> fmt::Result {
    let count = closed.count;
    let first = closed.first;
    let last = closed.last;
    let until = first.saturating_sub(1);
    let since = last.saturating_add(1);
    write!(
        f,
        "the listen address was closed from {first} to {last} ({count} ICMP errors): a restart: "
    )?;
    write!(
        f,
        "cut --until {until}, and cut --since {since} --from-start"
    )
}

fn write_stopped<W: fmt::Write>(f: &mut fmt::Formatter<W>, closed: &Closed) -> fmt::Result {
    let count = closed.count;
    let first = closed.first;
    let until = first.saturating_sub(1);
    write!(
        f,
        "the listen address was closed at {first} ({count} ICMP errors), and nothing left it afterwards: the server ended: cut --until {until}"
    )
}

fn write_released<W: fmt::Write>(f: &mut fmt::Formatter<W>, relaying: &Relaying) -> fmt::Result {
    let deletions = relaying.deletions;
    let departures = relaying.departures;
    let longest = relaying.longest / 1_000;
    let milliseconds = relaying.milliseconds();
    write!(
        f,
        "{departures} datagrams left up to {longest} us after the success response to a Refresh with LIFETIME 0, of {deletions} deletions, "
    )?;
    write!(
        f,
        "which is R4 (docs/FAULTS.md): to exclude them, cut --released-ms {milliseconds}"
    )
}

fn write_ended<W: fmt::Write>(f: &mut fmt::Formatter<W>, ended: &Ended) -> fmt::Result {
    let interface = InterfaceName(ended.interface);
    let end = ended.end;
    let departures = ended.departures;
    let gap = ended.gap / 1_000;
    write!(
        f,
        "{departures} datagrams left after the last frame of {interface}, which is {gap} us before the captures' end, "
    )?;
    write!(
        f,
        "and no captured arrival explains them: if that interface was captured no longer, cut --until {end}"
    )
}
