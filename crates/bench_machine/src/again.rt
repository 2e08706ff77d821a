//! The moves of a capture again and again, each round later than the one before, with arrivals that
//! nothing answers in between: what a machine judges that runs for months.

ghost use Rattle.std.specs.Prelude.{OnOk};
ghost use Rattle.audit_machine.specs.Machine.{IsConsistent};

use audit_keys::Credentials;
use audit_machine::{Action, Machine, Refusal, Upkeep};
use audit_model::{Pair, Payload, Policy, Side, SightId, Sighting};
use audit_rules::CredRow;
use audit_sightings::Intake;
use std::alloc::{AllocError, Global};
use std::sync::Arc;

/// The pause after a round, in nanoseconds: longer than any lease and the grace.
const PAUSE: u64 = 4_000_000_000_000;

/// After this number of moves comes an arrival that nothing answers.
const UNANSWERED: u64 = 10;

/// The sightings of the captures as they are in a round, by interface and index.
#[derive(Drop)]
pub(crate) struct Sightings {
    all: Vec<Vec<Sighting>>,
}

/// A copy of a sighting, with its own payload.
fn copied(alloc: Global, seen: &Sighting) -> Result<Sighting, AllocError> {
    let bytes = Vec::from_slice(alloc, seen.payload.as_slice())?;
    let len = u32::try_from(seen.payload.len()).unwrap_or(u32::MAX);
    let arena = Arc::new(alloc, bytes)?;
    Ok(Sighting {
        payload: Payload::of(&arena, 0, len)?,
        stamp: seen.stamp,
        lo: seen.lo,
        hi: seen.hi,
        id: seen.id,
        from: seen.from,
        to: seen.to,
        side: seen.side,
    })
}

impl Sightings {
    /// Those of an intake.
    pub(crate) fn new(alloc: Global, intake: &Intake) -> Result<Sightings, AllocError> {
        let mut all = Vec::new(alloc);
        for iface in 0..intake.interfaces() {
            let mut row = Vec::new(alloc);
            for seen in intake.interface(iface) {
                row.push(copied(alloc, seen)?)?;
            }
            all.push(row)?;
        }
        Ok(Sightings { all })
    }

    /// Makes them those of the next round, later by this number of nanoseconds.
    fn delay(&mut self, by: u64) {
        for row in &mut self.all {
            let count = u32::try_from(row.len()).unwrap_or(u32::MAX);
            for seen in row {
                seen.lo = seen.lo.saturating_add(by);
                seen.hi = seen.hi.saturating_add(by);
                seen.id.index = seen.id.index.saturating_add(count);
            }
        }
    }

    /// The sighting that has this id in the first round.
    fn get(&self, sight: SightId) -> Result<&Sighting, Refusal> {
        match self.all.get(sight.iface as usize) {
            Some(row) => row.get(sight.index as usize).ok_or(Refusal::Unknown),
            None => Err(Refusal::Unknown),
        }
    }
}

/// A machine, with what it may forget.
#[derive(Drop)]
pub(crate) struct Endless {
    machine: Machine,
    upkeep: Upkeep,
    /// The next arrival that nothing answers.
    unanswered: Sighting,
    pub(crate) moves: u64,
}

fn moment_of(action: Action) -> u64 {
    match action {
        Action::Arrive { moment, .. } | Action::Act { moment, .. } | Action::Leave { moment, .. } =>
            { moment }
    }
}

/// From the first move of a round to the first one of the next round.
pub(crate) fn span_of(actions: &[Action]) -> u64 {
    match (actions.first(), actions.last()) {
        (Some(first), Some(last)) => moment_of(*last)
            .saturating_sub(moment_of(*first))
            .saturating_add(PAUSE),
        _ => PAUSE,
    }
}

impl Endless {
    /// Before the first move.
    pub(crate) fn new(alloc: Global, policy: Policy, unanswered: Sighting) -> Endless
        ensures { IsConsistent result.machine }
    {
        Endless {
            machine: Machine::new(alloc, policy),
            upkeep: Upkeep::new(alloc),
            unanswered,
            moves: 0,
        }
    }

    /// Has the machine judge an arrival that nothing answers.
    fn arrive_unanswered(&mut self, moment: u64) -> Result<(), Refusal>
        requires { IsConsistent self.old.machine }
        ensures { OnOk result (IsConsistent self.new.machine) }
    {
        self.unanswered.lo = moment;
        self.unanswered.hi = moment;
        let sight = self.unanswered.id;
        self.machine.arrive(&self.unanswered, moment)?;
        self.upkeep.note(Action::Arrive { sight, moment })?;
        self.unanswered.id.index = sight.index.saturating_add(1);
        Ok(())
    }

    /// Has the machine judge an act.
    fn act(
        &mut self,
        alloc: Global,
        credentials: &Credentials,
        pair: Pair,
        arrives: &Sighting,
        leaves: &Sighting,
        moment: u64,
    ) -> Result<(), Refusal>
        requires { IsConsistent self.old.machine }
        ensures { OnOk result (IsConsistent self.new.machine) }
    {
        match CredRow::of_request(credentials, arrives.payload.as_slice()) {
            Some(row) => self
                .machine
                .act(alloc, pair, &[row], arrives, leaves, moment),
            None => self.machine.act(alloc, pair, &[], arrives, leaves, moment),
        }
    }

    /// Has the machine judge a move of a round that is later by this number of nanoseconds.
    fn apply(
        &mut self,
        alloc: Global,
        credentials: &Credentials,
        sightings: &Sightings,
        action: Action,
        late: u64,
    ) -> Result<(), Refusal>
        requires { IsConsistent self.old.machine }
        ensures { OnOk result (IsConsistent self.new.machine) }
    {
        let moment = moment_of(action).saturating_add(late);
        match action {
            Action::Arrive { sight, .. } => {
                let seen = sightings.get(sight)?;
                self.machine.arrive(seen, moment)?;
                self.upkeep.note(Action::Arrive {
                    sight: seen.id,
                    moment,
                })?;
            }
            Action::Act {
                pair,
                arrival,
                departure,
                ..
            } => {
                let arrives = sightings.get(arrival)?;
                let leaves = sightings.get(departure)?;
                self.act(alloc, credentials, pair, arrives, leaves, moment)?;
                self.upkeep.note(Action::Act {
                    pair,
                    arrival: arrives.id,
                    departure: leaves.id,
                    moment,
                })?;
            }
            Action::Leave { sight, .. } => self.machine.leave(sightings.get(sight)?, moment)?,
        }
        self.moves = self.moves.saturating_add(1);
        if self.moves % UNANSWERED == 0 {
            self.arrive_unanswered(moment)?;
        }
        self.machine.forget(&mut self.upkeep)?;
        Ok(())
    }

    /// Has the machine judge all moves of a round.
    pub(crate) fn round(
        &mut self,
        alloc: Global,
        credentials: &Credentials,
        sightings: &Sightings,
        actions: &[Action],
        late: u64,
    ) -> Result<(), Refusal>
        requires { IsConsistent self.old.machine }
        ensures { OnOk result (IsConsistent self.new.machine) }
    {
        'actions: for place in 0..actions.len() {
            self.apply(alloc, credentials, sightings, actions[place], late)?;
        }
        Ok(())
    }
}

/// Has a machine judge the moves this number of times; returns how many it accepted, and the
/// refusal that ended it.
pub(crate) fn judge_again(
    alloc: Global,
    intake: &Intake,
    credentials: &Credentials,
    policy: Policy,
    actions: &[Action],
    rounds: u64,
) -> Result<(u64, Result<(), Refusal>), AllocError> {
    let mut sightings = Sightings::new(alloc, intake)?;
    let Some(first) = intake.interface(0).first() else {
        return Ok((0, Ok(())));
    };
    let mut unanswered = copied(alloc, first)?;
    unanswered.side = Side::Arrives;
    unanswered.id = SightId {
        iface: intake.interfaces(),
        index: 0,
    };
    let span = span_of(actions);
    let mut endless = Endless::new(alloc, policy, unanswered);
    let mut late = 0u64;
    'rounds: for _ in 0..rounds {
        if let Err(refusal) = endless.round(alloc, credentials, &sightings, actions, late) {
            return Ok((endless.moves, Err(refusal)));
        }
        late = late.saturating_add(span);
        sightings.delay(span);
    }
    Ok((endless.moves, Ok(())))
}
