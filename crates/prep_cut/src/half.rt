//! The content of an excluded datagram.

ghost use Rattle.std.specs.Prelude.{◌≡◌, IfSome};
ghost use Rattle.prep_cut.specs.Datagrams.{payload_of_block};
ghost use Rattle.prep_cut.specs.Pairs.{IsOfDatagram};

use crate::datagram::{Datagram, payload_in};
use audit_model::Policy;
use prep_blocks::Block;
use prep_causes::{Half, carried_in};

/// An arrival or a departure by its content. `None` if it is neither data nor a request nor a
/// response.
pub(crate) fn half_in(policy: &Policy, block: &Block, datagram: &Datagram) -> Option<Half>
    ensures { IfSome result (λ half. IsOfDatagram policy.now (payload_of_block block.now) datagram.now half) }
{
    let is_relayed = policy.relays(datagram.own_end());
    let carried = carried_in(policy, is_relayed, datagram.far_end(), payload_in(block))?;
    Some(Half {
        stamp: datagram.stamp,
        side: datagram.side,
        carried,
    })
}
