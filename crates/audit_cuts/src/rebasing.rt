//! Ids that count from other bases.

ghost use Rattle.std.specs.Prelude.{◌≡◌, ◌≢◌, ◌+◌, ◌<◌, ◌≤◌, ◌⊎◌, ◌^◌, ℕ, Bool, List, None, map, length, IfSome, IfOk, IfErr, OnOk, OnErr};
ghost use Rattle.audit_model.specs.declared.sighting.SightId.{SightId as SightName};
ghost use Rattle.audit_cuts.specs.Absolute.{absolute_cut};
ghost use Rattle.audit_cuts.specs.Carried.{base_in};
ghost use Rattle.audit_cuts.specs.Rebasing.{totals, absolute_times, bases_of, IsUnfit, AreUnfitBases, IsUnfitTime, IsUnfitFor};

use crate::carried::{Came, Carried, Interface};
use audit_model::SightId;
use std::alloc::{AllocError, AllocFailed, Global};

/// Why ids can't count from these bases.
#[derive(Clone, Copy, Debug, PartialEq, Eq)]
pub enum RebaseError {
    /// The number of bases isn't that of the interfaces.
    Interfaces,
    /// More sightings of this interface come before its base than are placed, or the placed ones
    /// from the base on don't fit 32 bits.
    Placed(usize),
    /// The sighting waits or is owed, and comes before the base, or its index doesn't fit 32 bits.
    Sight(SightId),
    /// Memory ran out.
    Memory,
}

impl From<AllocError> for RebaseError {
    ghost from_gives = { λ _ e. e ≡ Memory };

    ghost use Rattle.audit_cuts.specs.declared.rebasing.RebaseError.TheVariants.{Memory};

    fn from(_error: AllocError) -> RebaseError {
        RebaseError::Memory
    }
}

impl<T: Drop> From<AllocFailed<T>> for RebaseError {
    ghost from_gives = { λ _ e. e ≡ Memory };

    ghost use Rattle.audit_cuts.specs.declared.rebasing.RebaseError.TheVariants.{Memory};

    fn from(_failed: AllocFailed<T>) -> RebaseError {
        RebaseError::Memory
    }
}

/// What an index, which counts from a base, is if it counts from another one; none if it comes
/// before that, or doesn't fit 32 bits.
fn from_base(base: u64, index: u32, other: u64) -> Option<u32>
    ensures some { IfSome result (λ moved. other + moved ≡ base + index) }
    ensures none { result ≡ None → IsUnfit base index other }
{
    let distance = if other <= base {
        (base - other).checked_add(u64::from(index))?
    } else {
        u64::from(index).checked_sub(other - base)?
    };
    u32::try_from(distance).ok()
}

/// The base of an interface; 0 if there is no such interface.
fn base_of(interfaces: &[Interface], iface: u32) -> u64
    ensures { result ≡ base_in interfaces.now iface }
{
    match interfaces.get(iface as usize) {
        Some(interface) => interface.base,
        None => 0,
    }
}

/// The interfaces with other bases, and with as many placed sightings in all as before.
fn with_bases(
    alloc: Global,
    interfaces: &[Interface],
    bases: &[u64],
) -> Result<Vec<Interface>, RebaseError>
    ensures totals { IfOk result (λ moved. totals moved.items ≡ totals interfaces.now) }
    ensures bases { IfOk result (λ moved. bases_of moved.items ≡ bases.now) }
    ensures why { IfErr result (AreUnfitBases interfaces.now bases.now) }
{
    if interfaces.len() != bases.len() {
        return Err(RebaseError::Interfaces);
    }
    let mut moved = Vec::new(alloc);
    for iface in 0..interfaces.len() {
        let Interface { base, placed } = interfaces[iface];
        let other = bases[iface];
        let Some(placed) = from_base(base, placed, other) else {
            return Err(RebaseError::Placed(iface));
        };
        moved.push(Interface {
            base: other,
            placed,
        })?;
    }
    Ok(moved)
}

/// The moments by ids that count from the bases of other interfaces.
fn moved_times(
    alloc: Global,
    times: &[Came],
    interfaces: &[Interface],
    others: &[Interface],
) -> Result<Vec<Came>, RebaseError>
    ensures same { IfOk result (λ moved. absolute_times (base_in others.now) moved.items ≡ absolute_times (base_in interfaces.now) times.now) }
    ensures why { IfErr result (IsUnfitTime times.now (base_in interfaces.now) (base_in others.now)) }
{
    let mut moved = Vec::new(alloc);
    for came in times {
        let SightId { iface, index } = came.sight;
        let base = base_of(interfaces, iface);
        let other = base_of(others, iface);
        let Some(index) = from_base(base, index, other) else {
            return Err(RebaseError::Sight(came.sight));
        };
        moved.push(Came {
            sight: SightId { iface, index },
            moment: came.moment,
        })?;
    }
    Ok(moved)
}

impl Carried {
    /// Has the ids of each interface count from these bases. The cut stays the same by the ids
    /// among all captured sightings. If it fails, nothing changes. It takes time and memory in
    /// proportion to the number of sightings and interfaces.
    pub fn rebase(&mut self, alloc: Global, bases: &[u64]) -> Result<(), RebaseError>
        ensures cut { OnOk result ((excluded : SightName → Bool) → absolute_cut self.new excluded ≡ absolute_cut self.old excluded) }
        ensures bases { OnOk result (bases_of self.new.interfaces.items ≡ bases.now) }
        ensures err { OnErr result (self.new ≡ self.old) }
        ensures why { IfErr result (IsUnfitFor self.old bases.now) }
    {
        let interfaces = with_bases(alloc, &self.interfaces, bases)?;
        let waiting = moved_times(alloc, &self.waiting, &self.interfaces, &interfaces)?;
        let owed = moved_times(alloc, &self.owed, &self.interfaces, &interfaces)?;
        self.interfaces = interfaces;
        self.waiting = waiting;
        self.owed = owed;
        Ok(())
    }
}
