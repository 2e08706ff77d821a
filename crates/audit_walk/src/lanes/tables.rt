//! The tables of clients that were carried over a cut.

use audit_cuts::Client;
use audit_expiry::{ExactKey, Leases};
use audit_model::{At, Key, Listed, SightId};
use audit_rules::{Allocation, LaneTable};
use audit_seen::LaneNumber;
use std::alloc::{AllocError, Global};

/// A table of leases with the first value of each key. It takes n log n time.
fn leases_of<K: ExactKey, V: Copy>(
    alloc: Global,
    entries: &[(K, V)],
) -> Result<Leases<K, V>, AllocError> {
    let mut leases = Leases::new(alloc);
    for (key, value) in entries.iter().rev() {
        leases.put(*key, *value)?;
    }
    Ok(leases)
}

/// The table of a client in a lane. Its allocation ends after this grace. The act that made it
/// isn't known any more, and no later act depends on it.
pub(super) fn table_of(
    alloc: Global,
    lane: LaneNumber,
    client: &Client,
    grace: u64,
) -> Result<LaneTable, AllocError> {
    let allocation = Allocation {
        permissions: leases_of(alloc, &client.permissions)?,
        channels: leases_of(alloc, &client.channels)?,
        user: Listed::from(Vec::from_slice(alloc, client.user.as_slice())?),
        lease: client.lease,
        last: client.lease.until.saturating_add(grace),
        born: At {
            key: Key { moment: 0, tie: 0 },
            lane: lane.value(),
            place: 0,
        },
        sight: SightId { iface: 0, index: 0 },
        relayed: client.relayed,
        id: client.id,
    };
    let pair = client.pair;
    Ok(LaneTable::resume(lane.value(), pair.client, pair.listen, allocation))
}
