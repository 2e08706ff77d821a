//! Whether a departure is explained by an arrival with one of its keys.

ghost use Rattle.std.specs.Prelude.{◌≡◌, ◌↔◌, ℕ, IsTrue};
ghost use Rattle.audit_model.specs.declared.sighting.Sighting.{Sighting};
ghost use Rattle.audit_keys.specs.KeyFor.{key_for};
ghost use Rattle.audit_sightings.specs.Intake.{taken};
ghost use Rattle.audit_faults.specs.ArrivalKeys.{HasKey, HasOwnedKey, IsOwnedBy};
ghost use Rattle.audit_faults.specs.Explains.{Explains};
ghost use Rattle.audit_faults.specs.Grants.{IsCaptured};
ghost use Rattle.audit_faults.specs.Index.{AreArrivals, IsIndex};
ghost use Rattle.audit_faults.specs.Leased.{address_number as number_of_address};
ghost use Rattle.audit_faults.specs.Pairs.{HasPartner, IsPartnerFor};

use crate::cause_keys::owned_key;
use crate::departure_keys::{
    key_of_any_peer, key_of_channel_data, key_of_named_peer, key_of_requests, key_of_sends,
};
use crate::fault::Fault;
use crate::index::Index;
use crate::lease_keys::address_number;
use crate::pairs::next_partner;
use crate::repeats::Arrivals;
use crate::sought::{count_in_reach, explained_by};
use audit_keys::Credentials;
use audit_model::{Addr, Sighting};
use audit_sightings::Intake;

/// If at most this many arrivals in reach have equal data, each of them is tried.
const FEW: usize = 4;

/// Whether an arrival with the key, if there is one, explains the departure.
fn explained_by_key(
    intake: &Intake,
    index: &Index<'_>,
    arrivals: Arrivals<'_>,
    credentials: &Credentials,
    fault: Fault,
    key: Option<u64>,
    departure: &Sighting,
) -> bool
    requires index { IsIndex (taken intake.now) index.now }
    requires arrivals { AreArrivals (taken intake.now) arrivals }
    ensures some { IsTrue result → ((arrival : Sighting) × IsCaptured (taken intake.now) arrival
        × Explains (taken intake.now) (key_for credentials.now) fault arrival departure.now) }
    ensures all { (arrival : Sighting) → IsCaptured (taken intake.now) arrival → HasKey (taken intake.now).policy key arrival →
        Explains (taken intake.now) (key_for credentials.now) fault arrival departure.now → IsTrue result }
{
    match key {
        Some(key) => explained_by(intake, index, arrivals, credentials, fault, key, departure),
        None => false,
    }
}

/// Whether an arrival with the key explains the departure, if its client, or the relayed address
/// that it was sent to, is a partner of the holder. It searches the arrivals of each partner. If
/// there are more partners than places in reach, it searches all of these places.
fn explained_by_partners(
    intake: &Intake,
    index: &Index<'_>,
    arrivals: Arrivals<'_>,
    credentials: &Credentials,
    fault: Fault,
    key: u64,
    holder: Addr,
    departure: &Sighting,
) -> bool
    requires index { IsIndex (taken intake.now) index.now }
    requires arrivals { AreArrivals (taken intake.now) arrivals }
    ensures some { IsTrue result → ((arrival : Sighting) × IsCaptured (taken intake.now) arrival
        × Explains (taken intake.now) (key_for credentials.now) fault arrival departure.now) }
    ensures all { (partner : ℕ) (arrival : Sighting) → HasPartner arrivals.entry.pairs.now (number_of_address holder) partner → IsCaptured (taken intake.now) arrival →
        IsOwnedBy (taken intake.now).policy key partner arrival → Explains (taken intake.now) (key_for credentials.now) fault arrival departure.now → IsTrue result }
{
    let number = address_number(holder);
    let mut steps = count_in_reach(intake, arrivals, key, departure);
    let mut least = 0;
    'partners: while let Some(partner) = next_partner(arrivals.pairs, number, least) {
        if steps == 0 {
            return explained_by(intake, index, arrivals, credentials, fault, key, departure);
        }
        let owned = owned_key(key, partner);
        if explained_by(
            intake,
            index,
            arrivals,
            credentials,
            fault,
            owned,
            departure,
        ) {
            return true;
        }
        steps -= 1;
        least = partner.saturating_add(1);
    }
    false
}

/// Whether an arrival with the key, if there is one, explains the departure. If the fault's check
/// includes an allocation, only arrivals of the holder's partners can: the holder is the relayed
/// address of the departure, or its client.
fn explained_by_data(
    intake: &Intake,
    index: &Index<'_>,
    arrivals: Arrivals<'_>,
    credentials: &Credentials,
    fault: Fault,
    key: Option<u64>,
    holder: Addr,
    departure: &Sighting,
) -> bool
    requires index { IsIndex (taken intake.now) index.now }
    requires arrivals { AreArrivals (taken intake.now) arrivals }
    ensures some { IsTrue result → ((arrival : Sighting) × IsCaptured (taken intake.now) arrival
        × Explains (taken intake.now) (key_for credentials.now) fault arrival departure.now) }
    ensures all { (partner : ℕ) (arrival : Sighting) → IsPartnerFor fault arrivals.entry.pairs.now holder partner → IsCaptured (taken intake.now) arrival →
        HasOwnedKey (taken intake.now).policy key partner arrival → Explains (taken intake.now) (key_for credentials.now) fault arrival departure.now → IsTrue result }
{
    let Some(key) = key else {
        return false;
    };
    if fault == Fault::Unasked || count_in_reach(intake, arrivals, key, departure) <= FEW {
        return explained_by(intake, index, arrivals, credentials, fault, key, departure);
    }
    explained_by_partners(
        intake,
        index,
        arrivals,
        credentials,
        fault,
        key,
        holder,
        departure,
    )
}

/// Whether an arrival with a key of the departure explains it. Each that explains it has one.
pub fn is_explained_by_keys(
    intake: &Intake,
    index: &Index<'_>,
    arrivals: Arrivals<'_>,
    users: &Credentials,
    fault: Fault,
    departure: &Sighting,
) -> bool
    requires index { IsIndex (taken intake.now) index.now }
    requires arrivals { AreArrivals (taken intake.now) arrivals }
    ensures { IsTrue result ↔ ((arrival : Sighting) × IsCaptured (taken intake.now) arrival
        × Explains (taken intake.now) (key_for users.now) fault arrival departure.now) }
{
    let policy = intake.policy();
    let requests = key_of_requests(policy, departure);
    let by_requests = explained_by_key(intake, index, arrivals, users, fault, requests, departure);
    if by_requests {
        return true;
    }
    let relayed = departure.from;
    let sends = key_of_sends(policy, departure);
    let by_sends = explained_by_data(
        intake, index, arrivals, users, fault, sends, relayed, departure,
    );
    if by_sends {
        return true;
    }
    let channel = key_of_channel_data(policy, departure);
    let by_channel = explained_by_data(
        intake, index, arrivals, users, fault, channel, relayed, departure,
    );
    if by_channel {
        return true;
    }
    let client = departure.to;
    let named_peer = key_of_named_peer(policy, departure);
    let by_named_peer = explained_by_data(
        intake, index, arrivals, users, fault, named_peer, client, departure,
    );
    if by_named_peer {
        return true;
    }
    let any_peer = key_of_any_peer(policy, departure);
    let by_any_peer = explained_by_data(
        intake, index, arrivals, users, fault, any_peer, client, departure,
    );
    by_any_peer
}
