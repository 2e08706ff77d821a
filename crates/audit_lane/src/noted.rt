//! Notes of the walk of a lane.

ghost use Rattle.std.specs.Prelude.{◌≡◌, ◌++◌, ℕ, None, OnOk, Some, nat_eq, option_to_list};
ghost use Rattle.std.specs.BTreeMap.{get};
ghost use Rattle.std.specs.Ordering.{nat_cmp};
ghost use Rattle.audit_model.specs.declared.sighting.SightId.{SightId as SightName};
ghost use Rattle.audit_model.specs.Sames.{same_sight};
ghost use Rattle.audit_server.specs.State.{put};
ghost use Rattle.audit_sights.specs.Found.{found};

use audit_model::{At, Listed, SightId, Tenancy};
use audit_sights::SightMap;
use std::alloc::AllocError;
use std::collections::BTreeMap;

/// An arrival that came.
#[derive(Clone, Copy, Debug)]
pub struct Arrival {
    /// When it came, in nanoseconds since 1970.
    pub moment: u64,
    /// The number of the user that it names, among the lane's users, if it is a request.
    pub user: Option<u32>,
    pub acted: bool,
}

/// A departure that an act sent.
#[derive(Clone, Copy, Debug)]
pub struct Departure {
    /// When the act's arrival came, in nanoseconds since 1970.
    pub arrived: u64,
    /// The act's place in the lane.
    pub place: u32,
}

/// An act whose departure has not left.
#[derive(Clone, Copy, Debug)]
pub struct Owed {
    pub at: At,
    /// The act's arrival.
    pub sight: SightId,
}

pub fn note_arrival(
    arrivals: &mut SightMap<Arrival>,
    sight: SightId,
    arrival: Arrival,
) -> Result<(), AllocError>
    ensures { OnOk result ((q : SightName) → found arrivals.new q ≡ put same_sight (found arrivals.old) sight (Some arrival) q) }
{
    arrivals.put(sight, arrival)?;
    Ok(())
}

pub fn note_departure(
    departures: &mut SightMap<Departure>,
    sight: SightId,
    departure: Departure,
) -> Result<(), AllocError>
    ensures { OnOk result ((q : SightName) → found departures.new q ≡ put same_sight (found departures.old) sight (Some departure) q) }
{
    departures.put(sight, departure)?;
    Ok(())
}

pub fn note_owed(owed: &mut BTreeMap<u32, Owed>, place: u32, one: Owed) -> Result<(), AllocError>
    ensures { OnOk result ((q : ℕ) → get nat_cmp owed.new q ≡ put nat_eq (get nat_cmp owed.old) place (Some one) q) }
{
    owed.insert(place, one)?;
    Ok(())
}

pub fn forget_owed(owed: &mut BTreeMap<u32, Owed>, place: u32)
    ensures { (q : ℕ) → get nat_cmp owed.new q ≡ put nat_eq (get nat_cmp owed.old) place None q }
{
    owed.remove(&place);
}

pub fn add_ended(tenancies: &mut Listed<Tenancy>, ended: Option<Tenancy>) -> Result<(), AllocError>
    ensures { OnOk result (tenancies.new ≡ tenancies.old ++ option_to_list ended) }
{
    if let Some(tenancy) = ended {
        tenancies.push(tenancy)?;
    }
    Ok(())
}
