//! What a line reports. Moments are nanoseconds since 1970; names of files may have any bytes.

ghost use Rattle.std.specs.Prelude.{◌≡◌};
ghost use Rattle.watch_report.specs.EventLine.{name_of};

use audit_model::{Addr, Pair, Rule, SightId};
use explain_text::code;

/// From its begin, and up to this moment, the server's datagrams conform.
#[derive(Clone, Copy, Debug, PartialEq, Eq)]
pub struct Claim {
    pub begin: u64,
    pub up_to: u64,
}

/// Where a packet is.
#[derive(Clone, Copy, Debug)]
pub struct FramePlace<'a> {
    /// The name of the file.
    pub capture: &'a [u8],
    /// The number of the frame in the file, from 1; `None` if it isn't known.
    pub frame: Option<u64>,
}

/// Why a move was refused.
#[derive(Clone, Copy, Debug, PartialEq, Eq)]
pub enum BreachReason {
    /// The first rule that an act breaks.
    Rule(Rule),
    /// No datagram has the id.
    Unknown,
    /// The moment is before that of the move before.
    Order,
    /// The datagram has the other direction, or the moment is not in its window.
    Window,
    /// The datagram is not the next one of its interface.
    Next,
    /// No act sent the departure, or its arrival is older than the hold.
    NotOwed,
    /// The arrival doesn't wait for an act, or is older than the hold.
    NotWaiting,
    /// The departure is owed already, or is placed.
    Sent,
    /// Another client has the relayed address of a usable allocation.
    Held,
}

/// A move that was refused.
#[derive(Clone, Copy, Debug)]
pub struct Breach<'a> {
    pub reason: BreachReason,
    pub moment: u64,
    pub sight: SightId,
    pub place: FramePlace<'a>,
    /// The client and the listen address; `None` if no client is known.
    pub pair: Option<Pair>,
    /// The client's relayed address; `None` if none is known.
    pub relayed: Option<Addr>,
}

/// Why the files before and after a gap make no one capture.
#[derive(Clone, Copy, Debug, PartialEq, Eq)]
pub enum GapReason {
    /// A file of the ring is missing, and a later one is there.
    Missing,
    /// A file was truncated or deleted before it was read to its end.
    Truncated,
    /// A block of a file was refused.
    Refused,
    /// A file's statistics report dropped packets.
    Dropped,
}

/// A gap in the ring.
#[derive(Clone, Copy, Debug)]
pub struct Gap<'a> {
    /// The name of the last file before it.
    pub from: &'a [u8],
    /// The name of the first file after it; `None` if it isn't known yet.
    pub to: Option<&'a [u8]>,
    pub reason: GapReason,
}

/// An end of a packet.
#[derive(Clone, Copy, Debug, PartialEq, Eq)]
pub enum Endpoint {
    /// An IPv4 address, if the packet doesn't say the port.
    Ip(u32),
    Address(Addr),
}

/// Why a packet can't be judged.
#[derive(Clone, Copy, Debug, PartialEq, Eq)]
pub enum UnreadReason {
    /// V1: a fragment of UDP with an IP address of the service.
    Fragment,
    /// V2: a datagram from the service to itself.
    Hairpin,
    /// V3: a datagram of which the capture has only the front.
    Cut,
}

/// Packets between two ends that are excluded from the claim, since they can't be judged.
#[derive(Clone, Copy, Debug)]
pub struct Unread<'a> {
    pub reason: UnreadReason,
    pub from: Endpoint,
    pub to: Endpoint,
    pub packets: u64,
    /// Where the first of them is.
    pub first: FramePlace<'a>,
}

/// What a line reports.
#[derive(Clone, Copy, Debug)]
pub enum Event<'a> {
    /// All that was captured up to the claim's moment conforms so far.
    Claim,
    Breach(Breach<'a>),
    Gap(Gap<'a>),
    /// A checkpoint was written to the file with this name.
    Checkpoint(&'a [u8]),
    /// The audit ended in order, and all that was captured conforms.
    End,
    Unread(Unread<'a>),
}

impl Event<'_> {
    /// The event's name, as a line has it.
    pub fn name(&self) -> &'static str
        ensures { result.now ≡ name_of self.now }
    {
        match self {
            Event::Claim => "claim",
            Event::Breach(_) => "breach",
            Event::Gap(_) => "gap",
            Event::Checkpoint(_) => "checkpoint",
            Event::End => "end",
            Event::Unread(_) => "unread",
        }
    }
}

impl BreachReason {
    /// A rule's code, as `R5`, or the name of another refusal: the value of the label `rule`.
    pub fn label(&self) -> &'static str {
        match self {
            BreachReason::Rule(rule) => code(*rule),
            BreachReason::Unknown => "unknown",
            BreachReason::Order => "order",
            BreachReason::Window => "window",
            BreachReason::Next => "next",
            BreachReason::NotOwed => "not owed",
            BreachReason::NotWaiting => "not waiting",
            BreachReason::Sent => "sent",
            BreachReason::Held => "held",
        }
    }
}

impl GapReason {
    /// The reason, as a line has it.
    pub fn text(&self) -> &'static str {
        match self {
            GapReason::Missing => "file missing",
            GapReason::Truncated => "file truncated",
            GapReason::Refused => "block refused",
            GapReason::Dropped => "packets dropped",
        }
    }
}

impl UnreadReason {
    /// The name under which `turnaudit` refuses a capture with such a packet.
    pub fn text(&self) -> &'static str {
        match self {
            UnreadReason::Fragment => "V1 fragment",
            UnreadReason::Hairpin => "V2 hairpin",
            UnreadReason::Cut => "V3 cut datagram",
        }
    }
}
