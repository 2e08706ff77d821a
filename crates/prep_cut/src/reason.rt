//! Why a packet is excluded.

ghost use Rattle.std.specs.Prelude.{◌≡◌};
ghost use Rattle.prep_cut.specs.ReasonText.{kind_of};
ghost use Rattle.prep_cut.specs.Caused.{needs_cause};

use audit_model::{Addr, Pair};
use std::fmt;

/// The client to which a relayed address was granted over TCP or IPv6.
#[derive(Clone, Copy, Debug, PartialEq, Eq)]
pub enum FarEnd {
    Tcp(Addr),
    Ipv6 { ip: [u16; 8], port: u16 },
}

/// Why packets are excluded, and to whom they belong: a line of the list.
#[derive(Clone, Copy, Debug, PartialEq, Eq)]
pub enum Reason {
    /// Before the moment of `--since`.
    BeforeSince,
    /// Of a client from before the capture: packets that need its earlier allocation.
    Client(Pair),
    /// A response whose request may be from before the capture.
    Answer(Pair),
    /// Data of a client from before the capture, at a relayed address that nobody was granted. A
    /// lease of the address begins a tenure.
    AddressOf {
        relayed: Addr,
        tenure: u32,
        pair: Pair,
    },
    /// A relayed address that was granted over TCP or IPv6.
    AddressTold {
        relayed: Addr,
        tenure: u32,
        client: FarEnd,
    },
    /// A relayed address that nobody was granted in the captures.
    Address {
        relayed: Addr,
        tenure: u32,
    },
    /// Relayed within the time of `--released-ms` after the client's Refresh success response with
    /// LIFETIME 0 at this moment: data with the client, and datagrams at its former relayed
    /// address.
    Released {
        pair: Pair,
        relayed: Addr,
        moment: u64,
    },
    /// DTLS at a listen address.
    Dtls(Pair),
    /// Data between a client and an address of the service.
    Inner {
        pair: Pair,
        peer: Addr,
    },
    /// Datagrams between two addresses of the service.
    Inside {
        from: Addr,
        to: Addr,
    },
    /// Departures whose arrival may be from before the captures.
    Edge,
    /// After the moment of `--until`.
    AfterUntil,
}

/// The kind of a line, without its names. The kinds are in the order of the list.
#[derive(Clone, Copy, Debug, PartialEq, Eq, PartialOrd, Ord)]
pub enum ReasonKind {
    BeforeSince,
    Client,
    Answer,
    AddressOf,
    AddressTold,
    Address,
    Released,
    Dtls,
    Inner,
    Inside,
    Edge,
    AfterUntil,
}

impl Reason {
    /// Whether a departure excluded by such a line must have its arrival excluded as well. The
    /// other lines are of moments, of packets whose arrival may be from before the captures, of
    /// clients whose datagrams can't be read, and of datagrams that the service sends to itself.
    pub fn needs_cause(&self) -> bool
        ensures { result ≡ needs_cause self.now }
    {
        match self {
            Reason::Client(_)
            | Reason::AddressOf { .. }
            | Reason::Released { .. }
            | Reason::Inner { .. } => true,
            Reason::BeforeSince
            | Reason::Answer(_)
            | Reason::AddressTold { .. }
            | Reason::Address { .. }
            | Reason::Dtls(_)
            | Reason::Inside { .. }
            | Reason::Edge
            | Reason::AfterUntil => false,
        }
    }

    /// The kind of the line, without its names.
    pub fn kind(&self) -> ReasonKind
        ensures { result ≡ kind_of self.now }
    {
        match self {
            Reason::BeforeSince => ReasonKind::BeforeSince,
            Reason::Client(_) => ReasonKind::Client,
            Reason::Answer(_) => ReasonKind::Answer,
            Reason::AddressOf { .. } => ReasonKind::AddressOf,
            Reason::AddressTold { .. } => ReasonKind::AddressTold,
            Reason::Address { .. } => ReasonKind::Address,
            Reason::Released { .. } => ReasonKind::Released,
            Reason::Dtls(_) => ReasonKind::Dtls,
            Reason::Inner { .. } => ReasonKind::Inner,
            Reason::Inside { .. } => ReasonKind::Inside,
            Reason::Edge => ReasonKind::Edge,
            Reason::AfterUntil => ReasonKind::AfterUntil,
        }
    }
}

/// The first word of such a line.
impl fmt::Display for ReasonKind {
    ghost use Rattle.std.specs.Prelude.{Some};
    ghost use Rattle.prep_cut.specs.ReasonText.{kind_text};

    ghost output = { λ kind. Some (kind_text kind) };

    fn fmt<W: fmt::Write>(&self, f: &mut fmt::Formatter<W>) -> fmt::Result {
        f.write_str(match self {
            ReasonKind::BeforeSince => "before-since",
            ReasonKind::Client => "client",
            ReasonKind::Answer => "answer",
            ReasonKind::AddressOf => "address-of",
            ReasonKind::AddressTold => "address-told",
            ReasonKind::Address => "address",
            ReasonKind::Released => "released",
            ReasonKind::Dtls => "dtls",
            ReasonKind::Inner => "inner",
            ReasonKind::Inside => "inside",
            ReasonKind::Edge => "edge",
            ReasonKind::AfterUntil => "after-until",
        })
    }
}

/// A group of an IPv6 address.
#[derive(Clone, Copy, Debug)]
struct Group {
    number: u16,
}

/// In lower-case hex.
impl fmt::Display for Group {
    ghost use Rattle.std.specs.Prelude.{Some, false};
    ghost use Rattle.std.specs.Fmt.{digits};

    ghost output = { λ group. Some (digits 16 false group.number) };

    fn fmt<W: fmt::Write>(&self, f: &mut fmt::Formatter<W>) -> fmt::Result {
        let number = self.number;
        write!(f, "{number:x}")
    }
}

/// Half of an IPv6 address.
#[derive(Clone, Copy, Debug)]
struct Half {
    first: Group,
    second: Group,
    third: Group,
    fourth: Group,
}

/// As `2001:db8:0:0`.
impl fmt::Display for Half {
    ghost use Rattle.std.specs.Prelude.{Some};
    ghost use Rattle.prep_cut.specs.ReasonText.{half_text};

    ghost output = { λ half. Some (half_text half.first.number half.second.number half.third.number half.fourth.number) };

    fn fmt<W: fmt::Write>(&self, f: &mut fmt::Formatter<W>) -> fmt::Result {
        let first = self.first;
        let second = self.second;
        let third = self.third;
        let fourth = self.fourth;
        write!(f, "{first}:{second}:{third}:{fourth}")
    }
}

/// As `tcp 198.51.100.8:53281`, or `ipv6 [2001:db8:0:0:0:0:0:1]:40000`.
impl fmt::Display for FarEnd {
    ghost use Rattle.std.specs.Prelude.{Some};
    ghost use Rattle.prep_cut.specs.ReasonText.{far_text};

    ghost output = { λ far. Some (far_text far) };

    fn fmt<W: fmt::Write>(&self, f: &mut fmt::Formatter<W>) -> fmt::Result {
        match self {
            FarEnd::Tcp(addr) => write!(f, "tcp {addr}"),
            FarEnd::Ipv6 { ip, port } => {
                let [a, b, c, d, e, g, h, i] = *ip;
                let front = Half {
                    first: Group { number: a },
                    second: Group { number: b },
                    third: Group { number: c },
                    fourth: Group { number: d },
                };
                let back = Half {
                    first: Group { number: e },
                    second: Group { number: g },
                    third: Group { number: h },
                    fourth: Group { number: i },
                };
                write!(f, "ipv6 [{front}:{back}]:{port}")
            }
        }
    }
}

/// The start of a line of the list.
impl fmt::Display for Reason {
    ghost use Rattle.std.specs.Prelude.{Some};
    ghost use Rattle.prep_cut.specs.ReasonText.{reason_text};

    ghost output = { λ reason. Some (reason_text reason) };

    fn fmt<W: fmt::Write>(&self, f: &mut fmt::Formatter<W>) -> fmt::Result {
        let kind = self.kind();
        match self {
            Reason::BeforeSince | Reason::Edge | Reason::AfterUntil => write!(f, "{kind}"),
            Reason::Client(pair) | Reason::Answer(pair) | Reason::Dtls(pair) => {
                let Pair { client, listen } = *pair;
                write!(f, "{kind} {client} {listen}")
            }
            Reason::AddressOf { relayed, pair, .. } => {
                let Pair { client, listen } = *pair;
                write!(f, "{kind} {relayed} {client} {listen}")
            }
            Reason::AddressTold {
                relayed,
                client,
                ..
            } => write!(f, "{kind} {relayed} {client}"),
            Reason::Address { relayed, .. } => write!(f, "{kind} {relayed}"),
            Reason::Released { pair, relayed, .. } => {
                let Pair { client, listen } = *pair;
                write!(f, "{kind} {client} {listen} {relayed}")
            }
            Reason::Inner { pair, peer } => {
                let Pair { client, listen } = *pair;
                write!(f, "{kind} {client} {listen} {peer}")
            }
            Reason::Inside { from, to } => write!(f, "{kind} {from} {to}"),
        }
    }
}
