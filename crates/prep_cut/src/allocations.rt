//! Which Allocate requests and success responses, deletions and senders captures show.

ghost use Rattle.std.specs.Prelude.{◌≡◌, ◌⊎◌, ◌≤◌, [], Contains, true, false, Some, OnOk};
ghost use Rattle.prep_cut.specs.declared.datagram.Datagram.{Datagram as AnyDatagram};
ghost use Rattle.prep_cut.specs.declared.release.Release.{Release as AnyRelease};
ghost use Rattle.prep_cut.specs.Allocating.{is_noted, is_noted_in, is_shown};
ghost use Rattle.audit_model.specs.declared.address.Addr.{Addr as AnyAddr};
ghost use Rattle.prep_cut.specs.Releasing.{IsReleaseIn, is_released};
ghost use Rattle.prep_cut.specs.declared.lease.Event.{Event as AnyEvent};
ghost use Rattle.prep_cut.specs.Leases.{IsEventIn};
ghost use Rattle.prep_cut.specs.Noted.{events_at};
ghost use Rattle.prep_cut.specs.Held.{HasEvent};
ghost use Rattle.prep_cut.specs.Edges.{IsAfter};
ghost use Rattle.prep_cut.specs.Sending.{Sends, SendsIn, is_sender};

use crate::datagram::{Datagram, datagram_in};
use crate::leases::Leases;
use crate::release::{Release, release_in};
use crate::transaction::Transaction;
use audit_model::{Addr, Pair, Policy, Side};
use prep_blocks::Block;
use std::alloc::{AllocError, Global};
use std::collections::BTreeSet;

/// The Allocate requests and success responses of captures, the deletions, and the senders.
#[derive(Debug, Drop)]
pub struct Allocations {
    pub(crate) asked: BTreeSet<Transaction>,
    granted: BTreeSet<Transaction>,
    released: BTreeSet<Release>,
    /// Pairs of a client that sends a datagram and the address of the service that gets it.
    senders: BTreeSet<(Addr, Addr)>,
    pub(crate) leases: Leases,
    /// The least moment of a packet; the greatest u64 if there is no packet.
    pub(crate) first: u64,
}

impl Allocations {
    /// No captures. It takes no memory.
    pub fn new(alloc: Global) -> Self
        ensures released { (release : AnyRelease) → is_released result release ≡ false }
        ensures senders { (client listen : AnyAddr) → is_sender result client listen ≡ false }
        ensures leases { (client listen : AnyAddr) → events_at result.leases.clients client listen ≡ [] }
    {
        Allocations {
            asked: BTreeSet::new(alloc),
            granted: BTreeSet::new(alloc),
            released: BTreeSet::new(alloc),
            senders: BTreeSet::new(alloc),
            leases: Leases::new(alloc),
            first: u64::MAX,
        }
    }

    /// Records the Allocate, the deletion and the sender of a block's datagram. The cost is the
    /// logarithm of the number of records.
    pub fn note(&mut self, policy: &Policy, block: &Block) -> Result<(), AllocError>
        ensures noted { OnOk result (is_noted_in policy.now self.new block.now ≡ true) }
        ensures kept { OnOk result ((other : AnyDatagram) → is_noted self.old other ≡ true → is_noted self.new other ≡ true) }
        ensures released { OnOk result ((release : AnyRelease) → is_released self.new release ≡ true →
            (is_released self.old release ≡ true) ⊎ IsReleaseIn policy.now release block.now) }
        ensures senders { OnOk result ((client listen : AnyAddr) → is_sender self.new client listen ≡ true →
            (is_sender self.old client listen ≡ true) ⊎ SendsIn policy.now client listen block.now) }
        ensures events { OnOk result ((event : AnyEvent) → IsEventIn policy.now event block.now → HasEvent self.new.leases event) }
        ensures events_kept { OnOk result ((event : AnyEvent) → HasEvent self.old.leases event → HasEvent self.new.leases event) }
        ensures events_only { OnOk result ((event : AnyEvent) (client listen : AnyAddr) → Contains (events_at self.new.leases.clients client listen) event →
            Contains (events_at self.old.leases.clients client listen) event ⊎ IsEventIn policy.now event block.now) }
        ensures least { OnOk result (IsAfter self.new.first block.now.packet) }
        ensures less { OnOk result (self.new.first ≤ self.old.first) }
    {
        self.first = least_with(self.first, block);
        self.leases.note(policy, block)?;
        self.note_datagrams(policy, block)?;
        Ok(())
    }

    fn note_datagrams(&mut self, policy: &Policy, block: &Block) -> Result<(), AllocError>
        ensures noted { OnOk result (is_noted_in policy.now self.new block.now ≡ true) }
        ensures kept { OnOk result ((other : AnyDatagram) → is_noted self.old other ≡ true → is_noted self.new other ≡ true) }
        ensures released { OnOk result ((release : AnyRelease) → is_released self.new release ≡ true →
            (is_released self.old release ≡ true) ⊎ IsReleaseIn policy.now release block.now) }
        ensures senders { OnOk result ((client listen : AnyAddr) → is_sender self.new client listen ≡ true →
            (is_sender self.old client listen ≡ true) ⊎ SendsIn policy.now client listen block.now) }
        ensures leases { self.new.leases ≡ self.old.leases }
        ensures first { self.new.first ≡ self.old.first }
    {
        self.note_release(policy, block)?;
        let Some(datagram) = datagram_in(policy, block) else {
            return Ok(());
        };
        self.note_sender(&datagram)?;
        self.note_datagram(&datagram)
    }

    fn note_sender(&mut self, datagram: &Datagram) -> Result<(), AllocError>
        ensures leases { self.new.leases ≡ self.old.leases }
        ensures first { self.new.first ≡ self.old.first }
        ensures asked { self.new.asked ≡ self.old.asked }
        ensures granted { self.new.granted ≡ self.old.granted }
        ensures released { self.new.released ≡ self.old.released }
        ensures senders { OnOk result ((client listen : AnyAddr) → is_sender self.new client listen ≡ true →
            (is_sender self.old client listen ≡ true) ⊎ Sends client listen (Some datagram.now)) }
    {
        if let Side::Arrives = datagram.side {
            self.senders.insert((datagram.from, datagram.to))?;
        }
        Ok(())
    }

    fn note_release(&mut self, policy: &Policy, block: &Block) -> Result<(), AllocError>
        ensures leases { self.new.leases ≡ self.old.leases }
        ensures first { self.new.first ≡ self.old.first }
        ensures asked { self.new.asked ≡ self.old.asked }
        ensures granted { self.new.granted ≡ self.old.granted }
        ensures senders { self.new.senders ≡ self.old.senders }
        ensures released { OnOk result ((release : AnyRelease) → is_released self.new release ≡ true →
            (is_released self.old release ≡ true) ⊎ IsReleaseIn policy.now release block.now) }
    {
        if let Some(release) = release_in(policy, block) {
            self.released.insert(release)?;
        }
        Ok(())
    }

    fn note_datagram(&mut self, datagram: &Datagram) -> Result<(), AllocError>
        ensures noted { OnOk result (is_noted self.new datagram.now ≡ true) }
        ensures kept { OnOk result ((other : AnyDatagram) → is_noted self.old other ≡ true → is_noted self.new other ≡ true) }
        ensures released { self.new.released ≡ self.old.released }
        ensures senders { self.new.senders ≡ self.old.senders }
        ensures leases { self.new.leases ≡ self.old.leases }
        ensures first { self.new.first ≡ self.old.first }
    {
        if let Some(transaction) = datagram.allocate {
            match datagram.side {
                Side::Arrives => self.asked.insert(transaction)?,
                Side::Leaves => self.granted.insert(transaction)?,
            };
        }
        Ok(())
    }

    /// Whether a datagram is an Allocate success response whose request is recorded, or an Allocate
    /// request whose success response is. The cost is the logarithm of the number of records.
    pub fn shows(&self, datagram: &Datagram) -> bool
        ensures { result ≡ is_shown self.now datagram.now }
    {
        match (datagram.allocate, datagram.side) {
            (Some(transaction), Side::Arrives) => self.granted.contains(&transaction),
            (Some(transaction), Side::Leaves) => self.asked.contains(&transaction),
            (None, _) => false,
        }
    }

    /// Whether the client sends something to its listen address. The cost is the logarithm of the
    /// number of senders.
    pub fn has_sender(&self, pair: &Pair) -> bool
        ensures { result ≡ is_sender self.now pair.now.client pair.now.listen }
    {
        self.senders.contains(&(pair.client, pair.listen))
    }

    /// Whether a deletion is recorded. The cost is the logarithm of their number.
    pub fn has_release(&self, release: &Release) -> bool
        ensures { result ≡ is_released self.now release.now }
    {
        self.released.contains(release)
    }
}

/// The least of a moment and that of a block's packet.
fn least_with(first: u64, block: &Block) -> u64
    ensures least { IsAfter result block.now.packet }
    ensures less { result ≤ first }
{
    match block.packet {
        Some(head) => first.min(head.stamp),
        None => first,
    }
}
