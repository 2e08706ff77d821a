//! The lines of the list, each once.

use audit_model::Addr;
use prep_cut::{FarEnd, LineNumber, Reason, ReasonKind};
use std::alloc::{AllocError, Global};
use std::collections::BTreeMap;

/// A reason as a key, by its kind, its numbers and its addresses.
#[derive(Clone, Copy, PartialEq, Eq, PartialOrd, Ord)]
struct ReasonKey {
    kind: ReasonKind,
    tenure: u32,
    moment: u64,
    first: Addr,
    second: Addr,
    third: Addr,
}

const NO_ADDRESS: Addr = Addr { ip: 0, port: 0 };

/// The client of a relayed address as two addresses, without the first three words of an IPv6 one.
fn parts_of(client: FarEnd) -> (Addr, Addr) {
    match client {
        FarEnd::Tcp(addr) => (addr, NO_ADDRESS),
        FarEnd::Ipv6 { ip, port } => {
            let [_, _, _, a, b, c, d, e] = ip;
            let high = Addr {
                ip: u32::from(b) << 16 | u32::from(c),
                port: a,
            };
            let low = Addr {
                ip: u32::from(d) << 16 | u32::from(e),
                port,
            };
            (high, low)
        }
    }
}

fn key_of(reason: &Reason) -> ReasonKey {
    let (tenure, first, second, third) = match reason {
        Reason::BeforeSince | Reason::Edge | Reason::AfterUntil => {
            (0, NO_ADDRESS, NO_ADDRESS, NO_ADDRESS)
        }
        Reason::Client(pair) | Reason::Answer(pair) | Reason::Dtls(pair) => {
            (0, pair.client, pair.listen, NO_ADDRESS)
        }
        Reason::AddressOf {
            relayed,
            tenure,
            pair,
        } => (*tenure, *relayed, pair.client, pair.listen),
        Reason::AddressTold {
            relayed,
            tenure,
            client,
        } => {
            let (high, low) = parts_of(*client);
            (*tenure, *relayed, high, low)
        }
        Reason::Address { relayed, tenure } => (*tenure, *relayed, NO_ADDRESS, NO_ADDRESS),
        Reason::Released { pair, relayed, .. } => (0, pair.client, pair.listen, *relayed),
        Reason::Inner { pair, peer } => (0, pair.client, pair.listen, *peer),
        Reason::Inside { from, to } => (0, *from, *to, NO_ADDRESS),
    };
    ReasonKey {
        kind: reason.kind(),
        tenure,
        moment: match reason {
            Reason::Released { moment, .. } => *moment,
            _ => 0,
        },
        first,
        second,
        third,
    }
}

/// Reasons in the order of their first use, each once.
#[derive(Drop)]
pub(crate) struct Lines {
    pub(crate) reasons: Vec<Reason>,
    numbers: BTreeMap<ReasonKey, LineNumber>,
}

impl Lines {
    /// No lines. It takes no memory.
    pub(crate) fn new(alloc: Global) -> Self {
        Lines {
            reasons: Vec::new(alloc),
            numbers: BTreeMap::new(alloc),
        }
    }

    /// The number of a reason's line. The cost is the logarithm of their number.
    pub(crate) fn number_of(&mut self, reason: Reason) -> Result<LineNumber, AllocError> {
        let key = key_of(&reason);
        if let Some(number) = self.numbers.get(&key) {
            return Ok(*number);
        }
        let number = u32::try_from(self.reasons.len()).unwrap_or(u32::MAX);
        self.reasons.push(reason)?;
        self.numbers.insert(key, number)?;
        Ok(number)
    }
}
