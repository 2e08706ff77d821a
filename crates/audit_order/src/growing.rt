//! A certificate to which lanes, events and drops are added.

ghost use Rattle.std.specs.Prelude.{◌≡◌, ◌<◌, ◌+◌, ◌-◌, ◌++◌, ◌∷◌, [], ℕ, All, Some, None, OnOk, true, length, map, min, option_map, slice_get};
ghost use Rattle.audit_model.specs.declared.certificate.CertLane.{CertLane as Lane};
ghost use Rattle.audit_model.specs.Event.{key_of};
ghost use Rattle.audit_model.specs.EventCount.{event_count};
ghost use Rattle.audit_sightings.specs.Intake.{Taken, taken};
ghost use Rattle.audit_placement.specs.Clean.{Takes, one_if};
ghost use Rattle.audit_order.specs.Grown.{empty_lane, with_events};
ghost use Rattle.audit_order.specs.Growing.{IsSound, last_key, places_one, with_event};
ghost use Rattle.audit_order.specs.Kept.{Stays};
ghost use Rattle.audit_placement.specs.Keys.{key_at};

use audit_model::{Addr, CertDrop, CertLane, Event, Extension, Key, Listed, Pair};
use audit_placement::{LaneEnd, PlacedKeys, note_event};
use audit_sightings::Intake;
use std::alloc::{AllocError, Global};

/// The content of a certificate so far.
#[derive(Drop)]
pub struct Growing {
    pub lanes: Vec<CertLane>,
    pub drops: Listed<CertDrop>,
    /// The keys at which they place sightings, while no breach is shown.
    pub keys: PlacedKeys,
    /// The number of arrivals and departures, drops included.
    pub count: u32,
    /// Whether what they place shows no breach.
    pub clean: bool,
}

fn is_placing(event: Event) -> bool
    ensures { result ≡ places_one event }
{
    match event {
        Event::In { .. } | Event::Out { .. } => true,
        Event::Act { .. } => false,
    }
}

/// The key of the last of the events.
fn last_of(events: &[Event]) -> Option<Key>
    ensures { result ≡ last_key events.now }
{
    match events.last() {
        Some(event) => Some(event.key()),
        None => None,
    }
}

impl Growing {
    /// The place of the next event of a lane.
    fn lane_end(&self, number: u32) -> LaneEnd
        requires { number < length self.now.lanes.items }
        ensures { (lane : Lane) → slice_get self.now.lanes.items number ≡ Some lane → result ≡ record { pair = Some (record { client = lane.client; listen = lane.listen }); last = last_key lane.events } }
    {
        let lane = &self.lanes[number as usize];
        LaneEnd {
            pair: Some(Pair {
                client: lane.client,
                listen: lane.listen,
            }),
            last: last_of(lane.events.as_slice()),
        }
    }

    /// The place of the next drop.
    fn drops_end(&self) -> LaneEnd
        ensures { result ≡ record { pair = None; last = option_map (λ dropped. dropped.key) (slice_get self.now.drops (length self.now.drops - 1)) } }
    {
        LaneEnd {
            pair: None,
            last: match self.drops.as_slice().last() {
                Some(dropped) => Some(dropped.key),
                None => None,
            },
        }
    }

    /// Notes the placement of an event after that end.
    fn take(&mut self, intake: &Intake, end: LaneEnd, event: Event)
        ensures clean { self.new.clean ≡ true → (self.old.clean ≡ true) × Takes (taken intake.now) (key_at self.old.keys) end.pair end.last event (key_at self.new.keys) }
        ensures count { self.new.count ≡ min (self.old.count + one_if (places_one event)) 4294967295 }
        ensures lanes { self.new.lanes ≡ self.old.lanes }
        ensures drops { self.new.drops ≡ self.old.drops }
    {
        self.clean = self.clean && note_event(intake, &mut self.keys, end, event);
        self.count = self.count.saturating_add(u32::from(is_placing(event)));
    }

    /// Adds a lane without events.
    fn add_lane(&mut self, alloc: Global, pair: (Addr, Addr)) -> Result<(), AllocError>
        ensures lanes { OnOk result (self.new.lanes.items ≡ self.old.lanes.items ++ empty_lane pair ∷ []) }
        ensures drops { self.new.drops ≡ self.old.drops }
        ensures sound { (taken : Taken) → IsSound taken self.old → OnOk result (IsSound taken self.new) }
    {
        let (client, listen) = pair;
        self.lanes.push(CertLane {
            events: Listed::new(alloc),
            client,
            listen,
        })?;
        Ok(())
    }

    /// Adds an event after the others of its lane.
    fn push_event(&mut self, number: u32, event: Event) -> Result<(), AllocError>
        requires { number < length self.old.lanes.items }
        ensures lanes { OnOk result (self.new.lanes.items ≡ with_event number event self.old.lanes.items) }
        ensures drops { self.new.drops ≡ self.old.drops }
        ensures keys { self.new.keys ≡ self.old.keys }
        ensures clean { self.new.clean ≡ self.old.clean }
        ensures count { self.new.count ≡ self.old.count }
    {
        self.lanes[number as usize].events.push(event)?;
        Ok(())
    }

    /// Adds an event after the others of its lane, and notes its placement.
    fn add_event(&mut self, intake: &Intake, number: u32, event: Event) -> Result<(), AllocError>
        requires { number < length self.old.lanes.items }
        ensures lanes { OnOk result (self.new.lanes.items ≡ with_event number event self.old.lanes.items) }
        ensures drops { OnOk result (self.new.drops ≡ self.old.drops) }
        ensures sound { IsSound (taken intake.now) self.old → OnOk result (IsSound (taken intake.now) self.new) }
    {
        let end = self.lane_end(number);
        self.take(intake, end, event);
        self.push_event(number, event)?;
        Ok(())
    }

    /// Adds a drop after the others, and notes that it places its arrival.
    fn add_drop(&mut self, intake: &Intake, dropped: CertDrop) -> Result<(), AllocError>
        ensures lanes { OnOk result (self.new.lanes.items ≡ self.old.lanes.items) }
        ensures drops { OnOk result (self.new.drops ≡ self.old.drops ++ dropped ∷ []) }
        ensures sound { IsSound (taken intake.now) self.old → OnOk result (IsSound (taken intake.now) self.new) }
    {
        let end = self.drops_end();
        let arrival = Event::In {
            sight: dropped.sight,
            key: dropped.key,
        };
        self.take(intake, end, arrival);
        self.drops.push(dropped)?;
        Ok(())
    }

    /// Adds lanes without events after the others.
    fn add_lanes(&mut self, alloc: Global, pairs: &[(Addr, Addr)]) -> Result<(), AllocError>
        ensures lanes { OnOk result (self.new.lanes.items ≡ self.old.lanes.items ++ map empty_lane pairs.now) }
        ensures drops { OnOk result (self.new.drops ≡ self.old.drops) }
        ensures sound { (taken : Taken) → IsSound taken self.old → OnOk result (IsSound taken self.new) }
    {
        'pairs: for pair in pairs {
            self.add_lane(alloc, *pair)?;
        }
        Ok(())
    }

    /// Adds events, each after the others of its lane.
    fn add_events(&mut self, intake: &Intake, events: &[(u32, Event)]) -> Result<(), AllocError>
        requires { All (λ event. event.0 < length self.old.lanes.items) events.now }
        ensures lanes { OnOk result (self.new.lanes.items ≡ with_events 0 self.old.lanes.items events.now) }
        ensures drops { OnOk result (self.new.drops ≡ self.old.drops) }
        ensures count { OnOk result (event_count self.new.lanes.items ≡ event_count self.old.lanes.items + length events.now) }
        ensures sound { IsSound (taken intake.now) self.old → OnOk result (IsSound (taken intake.now) self.new) }
    {
        'events: for (number, event) in events {
            self.add_event(intake, *number, *event)?;
        }
        Ok(())
    }

    /// Adds drops after the others.
    fn add_drops(&mut self, intake: &Intake, drops: &[CertDrop]) -> Result<(), AllocError>
        ensures lanes { OnOk result (self.new.lanes.items ≡ self.old.lanes.items) }
        ensures drops { OnOk result (self.new.drops ≡ self.old.drops ++ drops.now) }
        ensures sound { IsSound (taken intake.now) self.old → OnOk result (IsSound (taken intake.now) self.new) }
    {
        'drops: for dropped in drops {
            self.add_drop(intake, *dropped)?;
        }
        Ok(())
    }

    /// Adds an extension to a certificate of an intake that has grown. It takes time in proportion
    /// to the extension and the new sightings.
    pub fn extend(
        &mut self,
        alloc: Global,
        intake: &Intake,
        extension: &Extension,
    ) -> Result<(), AllocError>
        requires { All (λ event. event.0 < length self.old.lanes.items + length extension.now.lanes) extension.now.events }
        ensures lanes { OnOk result (self.new.lanes.items
            ≡ with_events 0 (self.old.lanes.items ++ map empty_lane extension.now.lanes) extension.now.events) }
        ensures drops { OnOk result (self.new.drops ≡ self.old.drops ++ extension.now.drops) }
        ensures count { OnOk result (event_count self.new.lanes.items ≡ event_count self.old.lanes.items + length extension.now.events) }
        ensures sound { (before : Taken) → Stays before (taken intake.now) → IsSound before self.old → OnOk result (IsSound (taken intake.now) self.new) }
    {
        self.keys.grow(alloc, intake)?;
        self.add_lanes(alloc, extension.lanes.as_slice())?;
        self.add_events(intake, extension.events.as_slice())?;
        self.add_drops(intake, extension.drops.as_slice())?;
        Ok(())
    }
}
