//! A lane before one of its events.

ghost use Rattle.std.specs.Prelude.{◌≡◌, ◌<◌, ◌+◌, IfOk, IfSome, OnOk, length};
ghost use Rattle.audit_lane.specs.Seen.{kept_of};
ghost use Rattle.audit_rules.specs.Effect.{standing};
ghost use Rattle.explain_state.specs.Before.{IsBefore};

use crate::history::{Ended, History};
use crate::lease_row::{LeaseKind, LeaseRow};
use audit_lane::{Lane, LaneEvent, LaneFault, LaneInput};
use audit_model::{Addr, Tenancy};
use audit_rules::LaneTable;
use std::alloc::{AllocError, Global};

/// A lane after a replay of the events before an index, none of which violates a rule.
#[derive(Drop)]
pub struct LaneAt<'a> {
    input: &'a LaneInput<'a>,
    lane: Lane<'a>,
    history: History,
    /// The index, among the lane's users, of the user in the last arrival that named one.
    user: Option<u32>,
    pub ghost one_input: { lane.input.now ≡ input.now },
}

impl<'a> LaneAt<'a> {
    /// The lane before its first event. It takes no memory.
    pub fn new(alloc: Global, input: &'a LaneInput<'a>) -> LaneAt<'a>
        ensures input { result.lane.input.now ≡ input.now }
        ensures before { IsBefore input.now 0 (kept_of result.lane.state) }
    {
        LaneAt {
            input,
            lane: Lane::new(alloc, input),
            history: History::new(alloc),
            user: None,
        }
    }

    /// The number of the lane's events.
    pub fn len(&self) -> u32
        ensures { result ≡ length self.now.lane.input.now.events }
    {
        self.input.events().len() as u32
    }

    /// Replays the event at an index, in turn from 0, or returns the rule that it violates; after a
    /// violation the lane can't be replayed further.
    pub fn step(&mut self, place: u32) -> Result<(), LaneFault>
        requires { place < length self.old.lane.input.now.events }
        ensures input { self.new.input.now ≡ self.old.input.now }
        ensures lane { self.new.lane.input.now ≡ self.old.lane.input.now }
        ensures before { OnOk result (IsBefore self.old.lane.input.now place (kept_of self.old.lane.state)
            → IsBefore self.old.lane.input.now (place + 1) (kept_of self.new.lane.state)) }
    {
        let event = self.input.events().get(place as usize).copied();
        self.lane.step(place)?;
        self.note(event)?;
        Ok(())
    }

    /// Records the leases after an event.
    fn note(&mut self, event: Option<LaneEvent<'a>>) -> Result<(), AllocError>
        ensures input { self.new.input.now ≡ self.old.input.now }
        ensures lane { self.new.lane ≡ self.old.lane }
    {
        match event {
            Some(LaneEvent::In { user, .. }) => {
                if user.is_some() {
                    self.user = user;
                }
                Ok(())
            }
            Some(
                LaneEvent::Act {
                    arrives,
                    leaves,
                    ..
                },
            ) => self.history.note(
                self.lane.table(),
                arrives.payload.as_slice(),
                arrives.id,
                leaves.id,
            ),
            Some(LaneEvent::Out { .. }) | None => Ok(()),
        }
    }

    /// The input by which the lane is judged.
    pub fn input(&self) -> &'a LaneInput<'a>
        ensures { result.now ≡ self.now.input.now }
    {
        self.input
    }

    /// The server's table for the client.
    pub fn table(&self) -> &LaneTable
        ensures { standing result.now ≡ (kept_of self.now.lane.state).standing }
    {
        self.lane.table()
    }

    /// The last known user that a request named, with its realm.
    pub fn user(&self) -> Option<(&'a [u8], &'a [u8])> {
        let row = self.input.users().get(self.user? as usize)?;
        Some((row.user, row.realm))
    }

    /// The allocation, usable or expired.
    pub fn allocation(&self) -> Option<LeaseRow> {
        let allocation = self.table().allocation()?;
        let held = self.history.allocation()?;
        let kind = LeaseKind::Allocation {
            relayed: allocation.relayed,
        };
        Some(LeaseRow::of(kind, allocation.lease.until, held))
    }

    /// The permission for an IP, usable or expired.
    pub fn permission(&self, ip: u32) -> Option<LeaseRow> {
        let lease = self.table().allocation()?.permissions.get(ip)?;
        let held = self.history.permission(ip)?;
        Some(LeaseRow::of(LeaseKind::Permission { ip }, lease.until, held))
    }

    /// The channel with a number, usable or expired.
    pub fn channel(&self, number: u16) -> Option<LeaseRow> {
        let channel = self.table().allocation()?.channels.get(number)?;
        let held = self.history.channel(number)?;
        let kind = LeaseKind::Channel {
            number,
            peer: channel.peer,
        };
        Some(LeaseRow::of(kind, channel.lease.until, held))
    }

    /// The channels, usable or expired, in the order of their numbers.
    pub fn channels(&self, alloc: Global) -> Result<Vec<LeaseRow>, AllocError> {
        let mut rows = Vec::new(alloc);
        for number in &self.history.channels(alloc)? {
            if let Some(row) = self.channel(*number) {
                rows.push(row)?;
            }
        }
        Ok(rows)
    }

    /// The permissions, usable or expired, in the order of their IPs.
    pub fn permissions(&self, alloc: Global) -> Result<Vec<LeaseRow>, AllocError> {
        let mut rows = Vec::new(alloc);
        for ip in &self.history.permissions(alloc)? {
            if let Some(row) = self.permission(*ip) {
                rows.push(row)?;
            }
        }
        Ok(rows)
    }

    /// The channel that is bound to a peer, usable or expired. It visits all channels.
    pub fn channel_of(&self, alloc: Global, peer: Addr) -> Result<Option<LeaseRow>, AllocError> {
        for row in &self.channels(alloc)? {
            if let LeaseKind::Channel { peer: bound, .. } = row.kind {
                if bound == peer {
                    return Ok(Some(*row));
                }
            }
        }
        Ok(None)
    }

    /// The allocations that have ended, in order.
    pub fn ended(&self) -> &[Ended] {
        self.history.ended()
    }

    /// The tenancies that acts ended, in order of birth.
    pub fn tenancies(&self) -> &[Tenancy] {
        self.lane.tenancies()
    }

    /// The tenancy that hasn't ended.
    pub fn running(&self) -> Option<Tenancy> {
        self.lane.running()
    }
}

/// The lane before the event at an index, or after its last one; `None` if an earlier event
/// violates a rule, or the lane has fewer events. It takes n log n in the events.
pub fn lane_before<'a>(
    alloc: Global,
    input: &'a LaneInput<'a>,
    place: u32,
) -> Result<Option<LaneAt<'a>>, AllocError>
    ensures before { IfOk result (λ found. IfSome found (λ lane. IsBefore input.now place (kept_of lane.lane.state))) }
{
    let mut lane = LaneAt::new(alloc, input);
    if place > lane.len() {
        return Ok(None);
    }
    'events: for at in 0..place {
        match lane.step(at) {
            Ok(()) => {}
            Err(LaneFault::Broken(_)) => return Ok(None),
            Err(LaneFault::Memory) => return Err(AllocError),
        }
    }
    Ok(Some(lane))
}
