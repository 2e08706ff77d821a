//! The lanes of a certificate that grows.

ghost use Rattle.std.specs.Prelude.{◌≡◌, ◌↔◌, ◌<◌, ◌≤◌, ◌+◌, ◌++◌, All, IfOk, OnOk, Some, length, vec_len};
ghost use Rattle.audit_keys.specs.KeyFor.{key_for};
ghost use Rattle.audit_model.specs.declared.certificate.TheConstants.{MAX_LANES};
ghost use Rattle.audit_sightings.specs.Intake.{NamesWhatIsThere, taken};
ghost use Rattle.audit_live.specs.CheckedTenancies.{AreTouched};
ghost use Rattle.audit_live.specs.Chain.{Chain};
ghost use Rattle.audit_live.specs.Turn.{AddsLane, NotesChecked, NotesRunning, NotesTurn, StepsIn, TakesTurn, Walks};
ghost use Rattle.audit_live.specs.Holding.{running_at};

use crate::checked_tenancies::is_past_last;
use crate::holders::Holders;
use crate::lane::LiveLane;
use audit_keys::Credentials;
use audit_model::{Addr, Breach, Event};
use audit_sightings::Intake;
use audit_tenancy::clash;
use std::alloc::{AllocError, Global};

/// The lanes so far, and which of them hold relayed addresses.
#[derive(Drop)]
pub struct LiveLanes {
    pub lanes: Vec<LiveLane>,
    pub holders: Holders,
    /// The number of departures that acts sent and that haven't left, over all lanes.
    pub owed: u64,
    pub alloc: Global,
}

/// The numbers of the lanes that have events.
fn lanes_of(alloc: Global, events: &[(u32, Event)]) -> Result<Vec<u32>, AllocError>
    ensures { IfOk result (λ numbers. AreTouched events.now numbers.items) }
{
    let mut numbers = Vec::with_capacity(alloc, events.len())?;
    'events: for (number, _) in events {
        numbers.push(*number)?;
    }
    numbers.sort_unstable();
    numbers.dedup();
    Ok(numbers)
}

impl LiveLanes {
    /// No lanes. Allocates no memory.
    pub fn new(alloc: Global) -> LiveLanes
        ensures lanes { vec_len result.lanes ≡ 0 }
        ensures owed { result.owed ≡ 0 }
    {
        LiveLanes {
            lanes: Vec::new(alloc),
            holders: Holders::new(alloc),
            owed: 0,
            alloc,
        }
    }

    fn add_lane(&mut self, number: u32, pair: (Addr, Addr)) -> Result<(), AllocError>
        requires { number ≡ vec_len self.old.lanes }
        ensures lanes { OnOk result (AddsLane self.old.lanes.items pair self.new.lanes.items) }
        ensures count { OnOk result (vec_len self.new.lanes ≡ vec_len self.old.lanes + 1) }
        ensures rest { (self.new.owed ≡ self.old.owed) × (self.new.holders ≡ self.old.holders) }
    {
        let (client, listen) = pair;
        self.lanes
            .push(LiveLane::new(self.alloc, number, client, listen))?;
        Ok(())
    }

    /// Adds lanes without events.
    pub fn add(&mut self, pairs: &[(Addr, Addr)]) -> Result<(), AllocError>
        requires { vec_len self.old.lanes + length pairs.now ≤ MAX_LANES }
        ensures lanes { OnOk result (Chain AddsLane self.old.lanes.items pairs.now self.new.lanes.items) }
        ensures count { OnOk result (vec_len self.new.lanes ≡ vec_len self.old.lanes + length pairs.now) }
        ensures rest { OnOk result ((self.new.owed ≡ self.old.owed) × (self.new.holders ≡ self.old.holders)) }
    {
        'pairs: for pair in pairs {
            let number = self.lanes.len() as u32;
            self.add_lane(number, *pair)?;
        }
        Ok(())
    }

    /// Applies the next event of a lane, and returns the breach that it shows.
    fn step(
        &mut self,
        intake: &Intake,
        credentials: &Credentials,
        number: u32,
        event: Event,
    ) -> Result<Option<Breach>, AllocError>
        requires number { number < vec_len self.old.lanes }
        requires named { NamesWhatIsThere (taken intake.now) event }
        ensures steps { IfOk result (λ found. StepsIn (taken intake.now) (key_for credentials.now) self.old (record { number = number; event = event; found = found }) self.new) }
        ensures count { vec_len self.new.lanes ≡ vec_len self.old.lanes }
    {
        let lane = &mut self.lanes[number as usize];
        let before = lane.owes;
        let breach = lane.step(intake, credentials, event)?;
        let after = lane.owes;
        self.owed = self
            .owed
            .saturating_sub(u64::from(before))
            .saturating_add(u64::from(after));
        Ok(breach)
    }

    /// Applies events, each the next one of its lane, and returns the least of the breaches that
    /// they show.
    fn walk(
        &mut self,
        intake: &Intake,
        credentials: &Credentials,
        events: &[(u32, Event)],
    ) -> Result<Option<Breach>, AllocError>
        requires numbers { All (λ event. event.0 < vec_len self.old.lanes) events.now }
        requires named { All (λ event. NamesWhatIsThere (taken intake.now) event.1) events.now }
        ensures walks { IfOk result (Walks (taken intake.now) (key_for credentials.now) self.old events.now self.new) }
        ensures count { OnOk result (vec_len self.new.lanes ≡ vec_len self.old.lanes) }
    {
        let mut least = None;
        'events: for (number, event) in events {
            let breach = self.step(intake, credentials, *number, *event)?;
            least = Breach::least(least, breach);
        }
        Ok(least)
    }

    fn note_checked_of(&mut self, number: u32)
        requires { number < vec_len self.old.lanes }
        ensures lanes { NotesChecked self.old.lanes.items number self.new.lanes.items }
        ensures count { vec_len self.new.lanes ≡ vec_len self.old.lanes }
        ensures rest { (self.new.owed ≡ self.old.owed) × (self.new.holders ≡ self.old.holders) }
    {
        self.lanes[number as usize].note_checked();
    }

    /// Marks the ended tenancies of those lanes as checked.
    fn note_checked(&mut self, touched: &[u32])
        requires { All (λ number. number < vec_len self.old.lanes) touched.now }
        ensures lanes { Chain NotesChecked self.old.lanes.items touched.now self.new.lanes.items }
        ensures count { vec_len self.new.lanes ≡ vec_len self.old.lanes }
        ensures rest { (self.new.owed ≡ self.old.owed) × (self.new.holders ≡ self.old.holders) }
    {
        'touched: for number in touched {
            self.note_checked_of(*number);
        }
    }

    fn note_running(&mut self, last: Option<u64>, number: u32) -> Result<(), AllocError>
        requires { number < vec_len self.old.lanes }
        ensures holders { OnOk result (NotesRunning self.old.lanes.items last self.old.holders (running_at self.old.lanes.items number) self.new.holders) }
        ensures rest { (self.new.owed ≡ self.old.owed) × (self.new.lanes ≡ self.old.lanes) }
    {
        if let Some(running) = self.lanes[number as usize].running() {
            if is_past_last(last, running.born.key.moment) {
                self.holders.note(&self.lanes, &running)?;
            }
        }
        Ok(())
    }

    /// Notes which of those lanes were granted addresses past the last horizon.
    fn note_holders(&mut self, last: Option<u64>, touched: &[u32]) -> Result<(), AllocError>
        requires { All (λ number. number < vec_len self.old.lanes) touched.now }
        ensures holders { OnOk result (Chain (λ was number is. NotesRunning self.old.lanes.items last was (running_at self.old.lanes.items number) is) self.old.holders touched.now self.new.holders) }
        ensures rest { OnOk result ((self.new.owed ≡ self.old.owed) × (self.new.lanes ≡ self.old.lanes)) }
    {
        'touched: for number in touched {
            self.note_running(last, *number)?;
        }
        Ok(())
    }

    /// Notes that those lanes were checked, and which of them were granted addresses past the last
    /// horizon.
    fn note(&mut self, last: Option<u64>, touched: &[u32]) -> Result<(), AllocError>
        requires { All (λ number. number < vec_len self.old.lanes) touched.now }
        ensures notes { OnOk result (NotesTurn last touched.now self.old self.new) }
        ensures count { OnOk result (vec_len self.new.lanes ≡ vec_len self.old.lanes) }
    {
        self.note_checked(touched);
        self.note_holders(last, touched)?;
        Ok(())
    }

    /// Applies the events of a turn, and returns the breach that the lanes or their tenancies show.
    /// It takes n log n time in the events.
    pub fn take(
        &mut self,
        intake: &Intake,
        credentials: &Credentials,
        last: Option<u64>,
        events: &[(u32, Event)],
    ) -> Result<Option<Breach>, AllocError>
        requires numbers { All (λ event. event.0 < vec_len self.old.lanes) events.now }
        requires named { All (λ event. NamesWhatIsThere (taken intake.now) event.1) events.now }
        ensures takes { IfOk result (TakesTurn (taken intake.now) (key_for credentials.now) last self.old events.now self.new) }
        ensures count { OnOk result (vec_len self.new.lanes ≡ vec_len self.old.lanes) }
    {
        let touched = lanes_of(self.alloc, events)?;
        if let Some(breach) = self.walk(intake, credentials, events)? {
            return Ok(Some(breach));
        }
        let checked = self.checked(last, touched.as_slice())?;
        if let Some(breach) = clash(self.alloc, checked.as_slice())? {
            return Ok(Some(breach));
        }
        self.note(last, touched.as_slice())?;
        Ok(None)
    }
}
