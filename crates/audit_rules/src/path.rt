//! Which of the server's two sides a datagram is on.

ghost use Rattle.std.specs.Prelude.{◌≡◌};
ghost use Rattle.audit_rules.specs.Situation.{arrival_path, departure_path};
ghost use Rattle.audit_rules.specs.Seen.{situation};

use crate::acts::Act;

/// The side of the server on which a datagram arrives or leaves.
#[derive(Clone, Copy, Debug, PartialEq, Eq)]
pub enum Path {
    /// Between the lane's client and its listen address.
    Client,
    /// At an address of a relay range.
    Relay,
}

/// The path of the arrival, if it is one of the lane's.
pub fn path_of_arrival(act: &Act<'_, '_>) -> Option<Path>
    ensures { result ≡ arrival_path (situation act.now) }
{
    if act.arrives.from == act.table.client && act.arrives.to == act.table.listen {
        Some(Path::Client)
    } else if act.policy.relays(act.arrives.to) {
        Some(Path::Relay)
    } else {
        None
    }
}

/// The path of the departure, if it is one of the lane's.
pub fn path_of_departure(act: &Act<'_, '_>) -> Option<Path>
    ensures { result ≡ departure_path (situation act.now) }
{
    if act.leaves.from == act.table.listen && act.leaves.to == act.table.client {
        Some(Path::Client)
    } else if act.policy.relays(act.leaves.from) {
        Some(Path::Relay)
    } else {
        None
    }
}
