//! A CreatePermission request and its success response (RFC 8656, section 10). See docs/RULES.md,
//! CreatePermission.

ghost use Rattle.std.specs.Prelude.{◌≡◌, Some, IfOk, MatchResult, option_map};
ghost use Rattle.audit_stun.specs.Parts.{parts_of};
ghost use Rattle.audit_rules.specs.Situation.{arrival_parts};
ghost use Rattle.audit_rules.specs.Values.{peer_ips_of};
ghost use Rattle.audit_rules.specs.Fault.{IsBroken};
ghost use Rattle.audit_rules.specs.Check.{AllHold, FirstFails};
ghost use Rattle.audit_rules.specs.Checks.{permission_checks};
ghost use Rattle.audit_rules.specs.Seen.{situation};

use crate::acts::Act;
use crate::credentials::{authenticated, signed_back};
use crate::fault::ActFault;
use crate::usable::usable_allocation;
use audit_model::Rule;
use audit_stun::{Message, address};
use smallvec::SmallVec;
use std::alloc::{AllocError, Global};

/// The IPs of the peers that a request names. Up to 16 need no allocation.
pub type PeerIps = SmallVec<u32, 16>;

/// The IPs of all peers that the request names; None if one of them can't be read.
#[tactic(auto, unfolding(crate::specs::Values::ips_of))]
fn peer_ips(alloc: Global, request: &Message<'_>) -> Result<Option<PeerIps>, AllocError>
    ensures { IfOk result (λ found. option_map (λ ips. ips.items) found ≡ peer_ips_of (parts_of request.now)) }
{
    let mut ips = PeerIps::new(alloc);
    let mut peers = request.peers();
    while let Some(value) = peers.next() {
        let Some(peer) = address(value) else {
            return Ok(None);
        };
        ips.push(peer.ip)?;
    }
    Ok(Some(ips))
}

/// The IPs that have a permission from now on.
pub fn permission(
    alloc: Global,
    act: &Act<'_, '_>,
    request: &Message<'_>,
    success: &Message<'_>,
) -> Result<PeerIps, ActFault>
    requires request { request.now ≡ (situation act.now).arrives.payload }
    requires success { success.now ≡ (situation act.now).leaves.payload }
    ensures { MatchResult result
        (λ ips. AllHold (permission_checks (situation act.now)) × (peer_ips_of (arrival_parts (situation act.now)) ≡ Some ips.items))
        (λ fault. IsBroken fault (λ rule. FirstFails (permission_checks (situation act.now)) rule)) }
{
    let Some(signer) = authenticated(act, request) else {
        return Err(ActFault::Broken(Rule::NotAuthentic));
    };
    let found = usable_allocation(act)?;
    if signer.user != found.user.as_slice() {
        return Err(ActFault::Broken(Rule::OtherUser));
    }
    let Some(ips) = peer_ips(alloc, request)? else {
        return Err(ActFault::Broken(Rule::PeerDiffers));
    };
    if ips.is_empty() {
        return Err(ActFault::Broken(Rule::PeerDiffers));
    }
    if !signed_back(act, &signer, success) {
        return Err(ActFault::Broken(Rule::ResponseIntegrity));
    }
    Ok(ips)
}
