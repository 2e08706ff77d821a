//! The walk over the sightings: the least moment first, interface by interface.

ghost use Rattle.std.specs.Prelude.{◌≡◌, OnOk};

mod acting;
mod deciding;
mod deleting;
mod early;
mod leaving;
mod matching;
mod noting;
mod requests;
mod resume;
mod walking;

use crate::ahead::Ahead;
use crate::clock::Clock;
use crate::datagrams::Datagrams;
use crate::found::Found;
use crate::interfaces::{DATA_WAITING, Interfaces, Role, WAITS};
use crate::judge::Judge;
use crate::lanes::Lanes;
use crate::numbers::ArrivalNumber;
use crate::portion::Portion;
use audit_model::SightId;
use std::alloc::{AllocError, Global};
use std::collections::BTreeSet;

/// The state of the walk.
#[derive(Drop)]
pub struct Search {
    /// How far each interface was placed.
    interfaces: Interfaces,
    /// The arrivals and responses, and which response is to which request.
    datagrams: Datagrams,
    /// The state of each client, and the holder of each relayed address.
    lanes: Lanes,
    /// The events.
    found: Found,
    clock: Clock,
    /// Whether requests are acted on when their responses leave, not when they arrive.
    is_late: bool,
    /// Events are emitted past this moment.
    placed_to: Option<u64>,
    /// The arrivals from before the cut at which the walk begins, until it places sightings.
    waiting: Vec<ArrivalNumber>,
    /// The departures that leave after that cut, and whose acts are before it.
    owed: BTreeSet<SightId>,
    alloc: Global,
}

impl Search {
    /// Nothing was found yet. Allocates no memory.
    pub fn new(alloc: Global) -> Search
        ensures { result.placed_to ≡ None }
    {
        Search {
            interfaces: Interfaces::new(alloc),
            datagrams: Datagrams::new(alloc),
            lanes: Lanes::new(alloc),
            found: Found::new(alloc),
            clock: Clock::new(),
            is_late: false,
            placed_to: None,
            waiting: Vec::new(alloc),
            owed: BTreeSet::new(alloc),
            alloc,
        }
    }

    /// A walk that acts on requests when their responses leave, so that leases last as long as
    /// possible. Nothing was found yet. Allocates no memory.
    pub fn late(alloc: Global) -> Search
        ensures { result.placed_to ≡ None }
    {
        let mut search = Search::new(alloc);
        search.is_late = true;
        search
    }

    /// The last horizon, past which events are emitted.
    pub fn placed_to(&self) -> Option<u64>
        ensures { result ≡ self.now.placed_to }
    {
        self.placed_to
    }

    /// Whether the server kept its rules in all that was placed, as far as the walk can determine.
    pub fn seems_conforming(&self) -> bool {
        self.found.seems_conforming()
    }

    /// Returns the events of the new sightings and of earlier ones that weren't emitted, up to the
    /// horizon, in the order of their keys.
    ///
    /// Sightings are placed some time past the horizon, so that the act of a departure soon after
    /// the horizon may still be before it.
    pub fn go(
        &mut self,
        judge: &Judge<'_>,
        ahead: &mut Ahead,
        horizon: u64,
    ) -> Result<Portion, AllocError>
        ensures { OnOk result (self.new.placed_to ≡ Some horizon) }
    {
        if let Some(placed_to) = self.placed_to {
            self.clock.reach(placed_to.saturating_add(1));
        }
        self.walk(judge, ahead, judge.placed_until(horizon))?;
        self.decide(judge, horizon)?;
        self.placed_to = Some(horizon);
        self.found.take_until(horizon)
    }

    /// Places sightings, the least moment first, up to the horizon.
    fn go_on(&mut self, judge: &Judge<'_>, horizon: u64) -> Result<(), AllocError> {
        let (_, sightings) = judge.intake().counts();
        // A sighting is queued once, a request perhaps twice, and a departure twice each time that
        // it waits, when each of those that wait for data may be queued once more.
        let each = (2 + DATA_WAITING as u64) * WAITS as u64 + 4;
        for _ in 0..each * (sightings as u64 + 1) {
            let Some((moment, iface)) = self.interfaces.pop(horizon) else {
                return Ok(());
            };
            if self.interfaces.is_queued_at(iface, moment) {
                self.clock.reach(moment);
                self.try_next(judge, iface)?;
            }
        }
        Ok(())
    }

    /// Places the next sighting of an interface, or lets it wait.
    fn try_next(&mut self, judge: &Judge<'_>, iface: u32) -> Result<(), AllocError> {
        let Some((sight, role)) = self.interfaces.start_next(iface) else {
            return Ok(());
        };
        let Some(sighting) = judge.sighting(sight) else {
            return Ok(());
        };
        let wait = match role {
            Role::Arrival(number) => {
                let earliest = self.datagrams.earliest_request(judge, number);
                if earliest > self.clock.moment() && earliest <= judge.latest_moment(sighting) {
                    return self.interfaces.queue(&self.clock, iface, earliest);
                }
                self.place_arrival(judge, number, sighting)?;
                None
            }
            Role::Answer(number) => {
                self.clock.begin_departure(judge.latest_moment(sighting));
                self.place_answer(judge, number, sighting)?
            }
            Role::Data(data) => {
                self.clock.begin_departure(judge.latest_moment(sighting));
                self.place_data(judge, sighting, &data)?
            }
            Role::Owed(lane) => self.leave(judge, lane, sighting)?,
        };
        match wait {
            Some(wait) => self.interfaces.wait(&self.clock, iface, wait),
            None => {
                self.interfaces.advance(iface);
                self.interfaces.queue_next(judge, &self.clock, iface)?;
                self.interfaces.wake_expecting(&self.clock)
            }
        }
    }
}
