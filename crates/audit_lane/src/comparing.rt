//! Compares two inputs by content.

ghost use Rattle.std.specs.Prelude.{◌≡◌, ◌↔◌, IsTrue, map};
ghost use Rattle.audit_lane.specs.Content.{happening, user_of};

use crate::input::LaneEvent;
use audit_model::{Addr, InterfaceSkew, Policy, PortRange};
use audit_rules::CredRow;
use audit_sightings::Sighting;

pub fn same_policy(one: &Policy, other: &Policy) -> bool
    ensures { IsTrue result ↔ (one.now ≡ other.now) }
{
    one.skew == other.skew
        && one.grace == other.grace
        && one.hold == other.hold
        && same_addresses(one.listen.as_slice(), other.listen.as_slice())
        && same_ranges(one.relay.as_slice(), other.relay.as_slice())
        && same_skews(one.skews.as_slice(), other.skews.as_slice())
}

// Each `==` has a proof of its own, so each is in a function.

fn same_addresses(one: &[Addr], other: &[Addr]) -> bool
    ensures { IsTrue result ↔ (one.now ≡ other.now) }
{
    one == other
}

fn same_ranges(one: &[PortRange], other: &[PortRange]) -> bool
    ensures { IsTrue result ↔ (one.now ≡ other.now) }
{
    one == other
}

fn same_skews(one: &[InterfaceSkew], other: &[InterfaceSkew]) -> bool
    ensures { IsTrue result ↔ (one.now ≡ other.now) }
{
    one == other
}

fn same_sighting(one: &Sighting, other: &Sighting) -> bool
    ensures { IsTrue result ↔ (one.now ≡ other.now) }
{
    one.id == other.id
        && one.side == other.side
        && one.from == other.from
        && one.to == other.to
        && one.stamp == other.stamp
        && one.lo == other.lo
        && one.hi == other.hi
        && one.payload.as_slice() == other.payload.as_slice()
}

fn same_user(one: &CredRow<'_>, other: &CredRow<'_>) -> bool
    ensures { IsTrue result ↔ (user_of one.now ≡ user_of other.now) }
{
    one.user == other.user
        && one.realm == other.realm
        && one.key.md5 == other.key.md5
        && one.key.sha256 == other.key.sha256
}

fn same_event(one: &LaneEvent<'_>, other: &LaneEvent<'_>) -> bool
    ensures { IsTrue result ↔ (happening one.now ≡ happening other.now) }
{
    match (*one, *other) {
        (
            LaneEvent::In {
                sighting,
                user,
                key,
            },
            LaneEvent::In {
                sighting: same,
                user: by,
                key: at,
            },
        ) => key == at && user == by && same_sighting(sighting, same),
        (
            LaneEvent::Act {
                arrives,
                leaves,
                key,
            },
            LaneEvent::Act {
                arrives: came,
                leaves: went,
                key: at,
            },
        ) => key == at && same_sighting(arrives, came) && same_sighting(leaves, went),
        (
            LaneEvent::Out { sighting, key },
            LaneEvent::Out {
                sighting: same,
                key: at,
            },
        ) => key == at && same_sighting(sighting, same),
        _ => false,
    }
}

pub fn same_users(one: &[CredRow<'_>], other: &[CredRow<'_>]) -> bool
    ensures { IsTrue result ↔ (map user_of one.now ≡ map user_of other.now) }
{
    if one.len() != other.len() {
        return false;
    }
    for i in 0..one.len() {
        if !same_user(&one[i], &other[i]) {
            return false;
        }
    }
    true
}

pub fn same_events(one: &[LaneEvent<'_>], other: &[LaneEvent<'_>]) -> bool
    ensures { IsTrue result ↔ (map happening one.now ≡ map happening other.now) }
{
    if one.len() != other.len() {
        return false;
    }
    for i in 0..one.len() {
        if !same_event(&one[i], &other[i]) {
            return false;
        }
    }
    true
}
