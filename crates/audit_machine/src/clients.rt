//! Clients as they are carried over a cut, and their tables.

ghost use Rattle.std.specs.Prelude.{◌≡◌, Some, IfOk, IfSome, option_map};
ghost use Rattle.audit_model.specs.declared.pair.Pair.{Pair as Holder};
ghost use Rattle.audit_expiry.specs.Leases.{value_at};
ghost use Rattle.audit_rules.specs.Effect.{standing};
ghost use Rattle.audit_cuts.specs.Carried as carried;
ghost use Rattle.audit_machine.specs.Tables.{allocation_in};

use audit_cuts::Client;
use audit_expiry::{ExactKey, Leases};
use audit_model::{At, Key, Listed, Pair, SightId};
use audit_rules::{Allocation, LaneTable};
use std::alloc::{AllocError, Global};

/// The client of a table, if it has an allocation. It takes time and memory in proportion to its
/// permissions and channels.
pub(crate) fn client_of(
    alloc: Global,
    pair: Pair,
    table: &LaneTable,
) -> Result<Option<Client>, AllocError>
    ensures allocation { IfOk result (λ client. option_map carried.allocation_of client ≡ allocation_in table.now) }
    ensures pair { IfOk result (λ client. IfSome client (λ client. client.pair ≡ pair)) }
{
    let Some(allocation) = table.allocation() else {
        return Ok(None);
    };
    Ok(Some(Client {
        pair,
        relayed: allocation.relayed,
        user: Listed::from(Vec::from_slice(alloc, allocation.user.as_slice())?),
        id: allocation.id,
        lease: allocation.lease,
        permissions: allocation.permissions.to_vec()?,
        channels: allocation.channels.to_vec()?,
    }))
}

/// A table of leases with the first value of each key. It takes n log n time.
fn leases_of<K: ExactKey, V: Copy>(
    alloc: Global,
    entries: &[(K, V)],
) -> Result<Leases<K, V>, AllocError>
    ensures { IfOk result (λ leases. (key : K) → value_at K.cmp leases key ≡ value_at K.cmp entries.now key) }
{
    let mut leases = Leases::new(alloc);
    for (key, value) in entries {
        if leases.get(*key).is_none() {
            leases.put(*key, *value)?;
        }
    }
    Ok(leases)
}

/// The table of a client. What no rule depends on is lost: the act that made its allocation.
pub(crate) fn table_of(alloc: Global, client: &Client) -> Result<LaneTable, AllocError>
    ensures allocation { IfOk result (λ table. allocation_in table ≡ Some (carried.allocation_of client.now)) }
    ensures client { IfOk result (λ table. (standing table).client ≡ client.now.pair.client) }
    ensures listen { IfOk result (λ table. (standing table).listen ≡ client.now.pair.listen) }
{
    let allocation = Allocation {
        permissions: leases_of(alloc, &client.permissions)?,
        channels: leases_of(alloc, &client.channels)?,
        user: Listed::from(Vec::from_slice(alloc, client.user.as_slice())?),
        lease: client.lease,
        last: client.lease.until,
        born: At {
            key: Key { moment: 0, tie: 0 },
            lane: 0,
            place: 0,
        },
        sight: SightId { iface: 0, index: 0 },
        relayed: client.relayed,
        id: client.id,
    };
    Ok(LaneTable::resume(0, client.pair.client, client.pair.listen, allocation))
}
