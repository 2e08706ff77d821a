//! The frames of the requested sightings.

ghost use Rattle.std.specs.Prelude.{◌≡◌, ◌<◌, ◌+◌, ◌*◌, ◌&&◌, ◌||◌, ℕ, Bool, false, [], List, OnOk, Some, None, is_some, slice_get, if◌then◌else◌};
ghost use Rattle.audit_model.specs.declared.policy.Policy.{Policy as AnyPolicy};
ghost use Rattle.audit_pcapng.specs.declared.packet.Packet.{Packet};
ghost use Rattle.audit_model.specs.declared.sighting.SightId.{SightId};
ghost use Rattle.audit_model.specs.Sames.{same_sight};
ghost use Rattle.explain_frames.specs.FramesOf.{Shows, frames_of, kept_for};

use crate::granting::{GrantFrame, GrantedBy, granted_in};
use audit_model::{Addr, Policy, SightId};
use audit_pcapng::PacketSlice;
use audit_sights::SightMap;
use std::alloc::{AllocError, Global};
use std::collections::BTreeMap;

/// A frame of a capture.
#[derive(Clone, Copy, Debug, PartialEq, Eq)]
pub struct Frame {
    /// Its number in its file, from 1, counting all packets.
    pub number: u64,
    /// Its stamp in the capture, in nanoseconds since 1970.
    pub stamp: u64,
}

/// The requested sightings, and their frames in the captures that were read so far.
#[derive(Drop)]
pub struct Frames {
    found: SightMap<Option<Frame>>,
    /// The least stamp of all packets so far.
    first: Option<u64>,
    /// The requested relayed addresses, each with the first frame that grants it and isn't judged.
    granted: BTreeMap<Addr, Option<GrantFrame>>,
    alloc: Global,
}

impl Frames {
    /// No requests. It takes no memory.
    pub fn new(alloc: Global) -> Frames
        ensures { (policy : AnyPolicy) (packets_of : ℕ → List Packet) → Shows result policy (λ _. false) packets_of }
    {
        Frames {
            found: SightMap::new(alloc),
            first: None,
            granted: BTreeMap::new(alloc),
            alloc,
        }
    }

    /// Requests a sighting, before the captures are read.
    pub fn request(&mut self, sight: SightId) -> Result<(), AllocError>
        ensures { (policy : AnyPolicy) (wanted : SightId → Bool) → Shows self.old policy wanted (λ _. []) →
            OnOk result (Shows self.new policy (λ other. same_sight other sight || wanted other) (λ _. [])) }
    {
        self.found.put(sight, None)
    }

    /// The frame of a requested sighting; `None` if no capture that was read has it. It takes log n
    /// in the requested sightings.
    pub fn frame(&self, sight: SightId) -> Option<Frame>
        // The n-th sighting of an interface is in the packet that has the interface's n-th datagram
        // of the service.
        ensures { (policy : AnyPolicy) (wanted : SightId → Bool) (packets_of : ℕ → List Packet) (file number : ℕ) →
            Shows self.now policy wanted packets_of → number < 64 → sight.iface ≡ 64 * file + number →
            result ≡ (if wanted sight then slice_get (frames_of policy number (packets_of file)) sight.index else None) }
    {
        self.found.get(sight)?
    }

    /// The least stamp of all packets, in nanoseconds since 1970; `None` if there was no packet.
    pub fn first(&self) -> Option<u64> {
        self.first
    }

    /// Requests the frame that grants this relayed address and isn't judged: one of TCP or IPv6, or
    /// of an endpoint that the policy lacks.
    pub fn look_for_grant(&mut self, relayed: Addr) -> Result<(), AllocError>
        ensures { self.new.found ≡ self.old.found }
    {
        self.granted.insert(relayed, None)?;
        Ok(())
    }

    /// Whether any such address is requested.
    pub fn looks_for_grants(&self) -> bool {
        !self.granted.is_empty()
    }

    /// The first such frame.
    pub fn grant_of(&self, relayed: Addr) -> Option<GrantFrame> {
        *self.granted.get(&relayed)?
    }

    /// Records the stamp of a packet.
    pub(crate) fn note_stamp(&mut self, stamp: u64)
        ensures { self.new.found ≡ self.old.found }
    {
        self.first = match self.first {
            Some(first) => Some(first.min(stamp)),
            None => Some(stamp),
        };
    }

    /// Records the frame of a sighting, if it is requested.
    pub(crate) fn note_frame(&mut self, sight: SightId, frame: Frame) -> Result<(), AllocError>
        ensures { OnOk result ((other : SightId) → kept_for self.new other
            ≡ (if same_sight other sight && is_some (kept_for self.old sight) then Some (Some frame) else kept_for self.old other)) }
    {
        if self.found.get(sight).is_none() {
            return Ok(());
        }
        self.found.put(sight, Some(frame))
    }

    /// Records the grants of a packet that isn't of the service, if their addresses are requested.
    pub(crate) fn note_unjudged_grants(
        &mut self,
        policy: &Policy,
        file: u16,
        number: u64,
        packet: PacketSlice<'_>,
    ) -> Result<(), AllocError>
        ensures { self.new.found ≡ self.old.found }
    {
        if self.granted.is_empty() {
            return Ok(());
        }
        let found = granted_in(self.alloc, policy, packet)?;
        note_grants(&mut self.granted, &found, file, number);
        Ok(())
    }
}

/// Records the frame of each requested address that has none yet.
fn note_grants(
    granted: &mut BTreeMap<Addr, Option<GrantFrame>>,
    found: &[GrantedBy],
    file: u16,
    number: u64,
) {
    for one in found {
        if let Some(frame) = granted.get_mut(&one.relayed) {
            if frame.is_none() {
                let source = one.source;
                *frame = Some(GrantFrame {
                    source,
                    file,
                    number,
                });
            }
        }
    }
}
