//! A lane that grows.

ghost use Rattle.std.specs.Prelude.{◌≡◌, ◌+◌, IfErr, IfOk, OnOk, drop, length, min};
ghost use Rattle.audit_keys.specs.KeyFor.{key_for};
ghost use Rattle.audit_model.specs.declared.event.Event.TheVariants.{Act as AnAct, In as AnArrival, Out as ADeparture};
ghost use Rattle.audit_sightings.specs.Intake.{NamesWhatIsThere, taken};
ghost use Rattle.audit_lane.specs.Seen.{IsShown, kept_of};
ghost use Rattle.audit_live.specs.Steps.{GoesOn, IsNew, IsOwing, Steps, Stops};

use audit_keys::Credentials;
use audit_lane::{LaneEvent, LaneFault, LaneState};
use audit_model::{Addr, Breach, Event, Key, SightId, Tenancy};
use audit_rules::CredRow;
use audit_sightings::Intake;
use std::alloc::{AllocError, Global};

/// A lane, as far as it is walked.
#[derive(Drop)]
pub struct LiveLane {
    pub number: u32,
    pub state: LaneState,
    /// The number of events so far, which is the place of the next one.
    pub steps: u32,
    /// How many of its ended tenancies were checked for clashes.
    pub checked: usize,
    /// The number of departures that acts sent and that haven't left.
    pub owes: u32,
    /// An event broke a rule; the lane isn't walked on.
    pub broken: bool,
}

impl LiveLane {
    /// The lane before its first event. Allocates no memory.
    pub fn new(alloc: Global, number: u32, client: Addr, listen: Addr) -> LiveLane
        ensures { IsNew number (client, listen) result }
    {
        LiveLane {
            number,
            state: LaneState::new(alloc, number, client, listen),
            steps: 0,
            checked: 0,
            owes: 0,
            broken: false,
        }
    }

    fn arrive(
        &mut self,
        intake: &Intake,
        credentials: &Credentials,
        sight: SightId,
        key: Key,
    ) -> Result<(), LaneFault>
        requires { NamesWhatIsThere (taken intake.now) (AnArrival sight key) }
        ensures goes_on { OnOk result (GoesOn (taken intake.now) (key_for credentials.now) self.old.number self.old.steps (AnArrival sight key) self.old.state self.new.state) }
        ensures stops { IfErr result (λ fault. IsShown fault (Stops (taken intake.now) (key_for credentials.now) self.old.number self.old.steps (AnArrival sight key) self.old.state)) }
        ensures rest { self.new ≡ record self.old { state = self.new.state } }
    {
        let sighting = intake.sighting(sight).unwrap();
        let arrives = LaneEvent::In {
            sighting,
            user: Some(0),
            key,
        };
        self.state
            .step(self.number, &[], intake.policy(), self.steps, arrives)
    }

    /// Applies an act. The user that its request names is looked up now.
    fn act(
        &mut self,
        intake: &Intake,
        credentials: &Credentials,
        sight: SightId,
        gives: SightId,
        key: Key,
    ) -> Result<(), LaneFault>
        requires { NamesWhatIsThere (taken intake.now) (AnAct sight gives key) }
        ensures goes_on { OnOk result (GoesOn (taken intake.now) (key_for credentials.now) self.old.number self.old.steps (AnAct sight gives key) self.old.state self.new.state) }
        ensures stops { IfErr result (λ fault. IsShown fault (Stops (taken intake.now) (key_for credentials.now) self.old.number self.old.steps (AnAct sight gives key) self.old.state)) }
        ensures rest { self.new ≡ record self.old { state = self.new.state } }
    {
        let arrives = intake.sighting(sight).unwrap();
        let leaves = intake.sighting(gives).unwrap();
        let act = LaneEvent::Act {
            arrives,
            leaves,
            key,
        };
        match CredRow::of_request(credentials, arrives.payload.as_slice()) {
            Some(row) => self
                .state
                .step(self.number, &[row], intake.policy(), self.steps, act),
            None => self
                .state
                .step(self.number, &[], intake.policy(), self.steps, act),
        }
    }

    fn leave(
        &mut self,
        intake: &Intake,
        credentials: &Credentials,
        sight: SightId,
        key: Key,
    ) -> Result<(), LaneFault>
        requires { NamesWhatIsThere (taken intake.now) (ADeparture sight key) }
        ensures goes_on { OnOk result (GoesOn (taken intake.now) (key_for credentials.now) self.old.number self.old.steps (ADeparture sight key) self.old.state self.new.state) }
        ensures stops { IfErr result (λ fault. IsShown fault (Stops (taken intake.now) (key_for credentials.now) self.old.number self.old.steps (ADeparture sight key) self.old.state)) }
        ensures rest { self.new ≡ record self.old { state = self.new.state } }
    {
        let sighting = intake.sighting(sight).unwrap();
        let leaves = LaneEvent::Out { sighting, key };
        self.state
            .step(self.number, &[], intake.policy(), self.steps, leaves)
    }

    /// Applies its next event, or returns the rule that it breaks.
    fn walk(
        &mut self,
        intake: &Intake,
        credentials: &Credentials,
        event: Event,
    ) -> Result<(), LaneFault>
        requires { NamesWhatIsThere (taken intake.now) event }
        ensures goes_on { OnOk result (GoesOn (taken intake.now) (key_for credentials.now) self.old.number self.old.steps event self.old.state self.new.state) }
        ensures stops { IfErr result (λ fault. IsShown fault (Stops (taken intake.now) (key_for credentials.now) self.old.number self.old.steps event self.old.state)) }
        ensures rest { self.new ≡ record self.old { state = self.new.state } }
    {
        match event {
            Event::In { sight, key } => self.arrive(intake, credentials, sight, key),
            Event::Act { sight, gives, key } => self.act(intake, credentials, sight, gives, key),
            Event::Out { sight, key } => self.leave(intake, credentials, sight, key),
        }
    }

    /// Counts one more event.
    fn count(&mut self)
        ensures rest { self.new ≡ record self.old { steps = min (self.old.steps + 1) 4294967295; owes = self.new.owes } }
        ensures owing { IsOwing self.new }
    {
        self.steps = self.steps.saturating_add(1);
        self.owes = self.state.owed();
    }

    /// Applies its next event, and returns the breach that it shows. A lane that has shown one is
    /// not walked on.
    pub fn step(
        &mut self,
        intake: &Intake,
        credentials: &Credentials,
        event: Event,
    ) -> Result<Option<Breach>, AllocError>
        requires { NamesWhatIsThere (taken intake.now) event }
        ensures { IfOk result (Steps (taken intake.now) (key_for credentials.now) self.old event self.new) }
    {
        if self.broken {
            return Ok(None);
        }
        match self.walk(intake, credentials, event) {
            Ok(()) => {
                self.count();
                Ok(None)
            }
            Err(LaneFault::Broken(breach)) => {
                self.broken = true;
                Ok(Some(breach))
            }
            Err(LaneFault::Memory) => Err(AllocError),
        }
    }

    /// The ended tenancies that weren't checked for clashes.
    pub fn ended(&self) -> &[Tenancy]
        ensures { result.now ≡ drop (min self.now.checked (length (kept_of self.now.state).ended)) (kept_of self.now.state).ended }
    {
        let ended = self.state.tenancies();
        &ended[self.checked.min(ended.len())..]
    }

    /// Marks all ended tenancies as checked for clashes.
    pub fn note_checked(&mut self)
        ensures { self.new ≡ record self.old { checked = length (kept_of self.old.state).ended } }
    {
        self.checked = self.state.tenancies().len();
    }

    /// The current tenancy.
    pub fn running(&self) -> Option<Tenancy>
        ensures { result ≡ (kept_of self.now.state).standing.tenancy }
    {
        self.state.running()
    }
}
