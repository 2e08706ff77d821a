//! The moments at which datagrams may be placed and responses sent.

use super::Judge;
use audit_model::{Key, SightId, Sighting};

/// How many sightings after a departure bound its latest moment.
const LOOKED_AHEAD: usize = 4;

/// How far ahead of a moment sightings are read, in addition to their windows, in nanoseconds.
/// Servers respond to most requests sooner.
const LONGEST: u64 = 20_000_000;

impl Judge<'_> {
    /// The first moment at which a datagram may be placed.
    pub(crate) fn first_moment(&self, sighting: &Sighting) -> u64 {
        self.windows.first(sighting)
    }

    /// The last moment at which a datagram may be placed.
    pub(crate) fn last_moment(&self, sighting: &Sighting) -> u64 {
        self.windows.last(sighting)
    }

    /// The latest moment of a departure: the end of its window, or of the window of one of the next
    /// sightings of its interface.
    pub(crate) fn latest_moment(&self, leaves: &Sighting) -> u64 {
        let SightId { iface, index } = leaves.id;
        let row = self.intake.interface(iface);
        let behind = row.get(index as usize..).unwrap_or(&[]).iter().skip(1);
        let mut moment = self.last_moment(leaves);
        for next in behind.take(LOOKED_AHEAD) {
            moment = moment.min(self.last_moment(next));
        }
        moment
    }

    /// The earliest arrival to which a response may leave at a moment.
    pub(crate) fn earliest_arrival(&self, moment: u64) -> u64 {
        moment.saturating_sub(self.policy().hold)
    }

    /// The last moment at which a response may leave to a datagram that arrived at a moment.
    pub(crate) fn latest_answer(&self, moment: u64) -> u64 {
        moment.saturating_add(self.policy().hold)
    }

    /// The moment until which a response may wait for data: at most a fourth of `hold`, since what
    /// leaves after it on its interface waits, too.
    pub(crate) fn data_wait_end(&self, leaves: &Sighting) -> u64 {
        let longest = (self.policy().hold / 4).min(LONGEST);
        self.first_moment(leaves).saturating_add(longest)
    }

    /// How far ahead of a moment sightings are read, in nanoseconds.
    pub(crate) fn look_ahead(&self) -> u64 {
        let policy = self.policy();
        let windows = self.windows.widest(policy);
        policy.hold.min(LONGEST).saturating_add(windows)
    }

    /// The moment up to which sightings are placed if events are emitted up to a horizon: later by
    /// twice the look-ahead, but at most by half of `hold` less the look-ahead. All datagrams up to
    /// `hold` after the horizon are captured by then, except those that the windows hide. The other
    /// half is for captures that aren't in the order of their moments.
    pub(crate) fn placed_until(&self, horizon: u64) -> u64 {
        let ahead = self.look_ahead();
        let known = self.policy().hold.saturating_sub(ahead);
        horizon.saturating_add(ahead.saturating_mul(2).min(known / 2))
    }
}
