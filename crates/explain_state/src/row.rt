//! The outcome of each lane.

ghost use Rattle.std.specs.Prelude.{◌≡◌};
ghost use Rattle.audit_lane.specs.Judged.{IsJudged};
ghost use Rattle.explain_state.specs.Rows.{IsRowOf, breach_in};

use audit_lane::{Finding, LaneEvent, LaneInput, Outcome};
use audit_model::{Addr, Breach, Sighting};

/// Datagrams and the bytes of their payloads.
#[derive(Clone, Copy, Debug)]
pub struct Traffic {
    pub datagrams: u64,
    pub bytes: u64,
}

impl Traffic {
    fn none() -> Traffic {
        Traffic {
            datagrams: 0,
            bytes: 0,
        }
    }

    fn with(self, sighting: &Sighting) -> Traffic {
        let size = sighting.payload.len() as u64;
        Traffic {
            datagrams: self.datagrams.saturating_add(1),
            bytes: self.bytes.saturating_add(size),
        }
    }
}

/// A lane, and its outcome, judged alone.
#[derive(Clone, Copy)]
pub struct LaneRow<'a> {
    pub number: u32,
    pub client: Addr,
    pub listen: Addr,
    /// The name of the last known user that its requests named.
    pub user: Option<&'a [u8]>,
    /// The datagrams from the client to its listen address.
    pub up: Traffic,
    /// The datagrams from there to the client.
    pub down: Traffic,
    /// Its first breach, if it has one.
    pub breach: Option<Breach>,
}

/// The datagrams that the client of a lane sent.
fn sent_by(input: &LaneInput<'_>) -> Traffic {
    let mut traffic = Traffic::none();
    for event in input.events() {
        if let LaneEvent::In { sighting, .. } = event {
            if sighting.from == input.client() && sighting.to == input.listen() {
                traffic = traffic.with(sighting);
            }
        }
    }
    traffic
}

/// The datagrams that were sent to the client of a lane.
fn sent_to(input: &LaneInput<'_>) -> Traffic {
    let mut traffic = Traffic::none();
    for event in input.events() {
        if let LaneEvent::Out { sighting, .. } = event {
            if sighting.to == input.client() && sighting.from == input.listen() {
                traffic = traffic.with(sighting);
            }
        }
    }
    traffic
}

/// The first breach of a judged lane.
fn breach_of(finding: &Finding<'_>) -> Option<Breach>
    ensures told { result ≡ breach_in finding.now.outcome }
    ensures judged { IsJudged finding.now.input finding.now.outcome }
{
    match finding.outcome() {
        Outcome::Passed(_) => None,
        Outcome::Broken(breach) => Some(*breach),
    }
}

/// The row of a judged lane. It visits all events.
pub fn lane_row<'a>(finding: &Finding<'a>) -> LaneRow<'a>
    ensures { IsRowOf finding.now result }
{
    let input = finding.input();
    LaneRow {
        number: input.number(),
        client: input.client(),
        listen: input.listen(),
        user: input.users().last().map(|row| row.user),
        up: sent_by(input),
        down: sent_to(input),
        breach: breach_of(finding),
    }
}
