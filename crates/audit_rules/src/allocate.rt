//! An Allocate request and its success response (RFC 8656, sections 6 and 7). See docs/RULES.md,
//! New allocation and Repeated allocation.

ghost use Rattle.std.specs.Prelude.{◌≡◌, ◌↔◌, IsTrue, Some, None, MatchResult, MatchOption};
ghost use Rattle.audit_stun.specs.declared.numbers.attribute.TheConstants.{XOR_RELAYED_ADDRESS};
ghost use Rattle.audit_stun.specs.declared.numbers.attribute.TheConstants as attributes;
ghost use Rattle.audit_stun.specs.Counted.{first_of};
ghost use Rattle.audit_model.specs.declared.rule.Rule.TheVariants.{Malformed, MappedAddress};
ghost use Rattle.audit_rules.specs.Situation.{arrival_parts, answered};
ghost use Rattle.audit_rules.specs.Values.{address_named, lifetime_of};
ghost use Rattle.audit_rules.specs.Standing.{NothingLasts, IsOwn};
ghost use Rattle.audit_rules.specs.Allocating.{RequestsUdpOnIpv4, MayBeRelayed};
ghost use Rattle.audit_rules.specs.Check.{AllHold, FirstFails};
ghost use Rattle.audit_rules.specs.Checks.{new_checks, again_checks};
ghost use Rattle.audit_rules.specs.FirstRule.{made_it};
ghost use Rattle.audit_rules.specs.Seen.{situation};

use crate::acts::Act;
use crate::credentials::{authenticated, signed_back};
use crate::table::Allocation;
use crate::usable::usable_allocation;
use crate::values::{UDP, address_in, family_in, lifetime_in, transport_in};
use audit_model::{Addr, Rule};
use audit_stun::Message;
use audit_stun::numbers::attribute::{EVEN_PORT, XOR_MAPPED_ADDRESS, XOR_RELAYED_ADDRESS};

/// The family of IPv4 addresses (RFC 8656, section 18.6).
const IPV4: u8 = 1;

/// The content of a new allocation.
#[derive(Clone, Copy)]
pub struct Made<'a> {
    pub user: &'a [u8],
    pub relayed: Addr,
    /// More than 0.
    pub seconds: u32,
}

/// Whether this request made the allocation, and it is usable.
pub fn is_again(act: &Act<'_, '_>, request: &Message<'_>) -> bool
    requires { request.now ≡ (situation act.now).arrives.payload }
    ensures { result ≡ made_it (situation act.now) (situation act.now).allocation }
{
    match usable_allocation(act) {
        Ok(found) => found.id == request.tid(),
        Err(_) => false,
    }
}

/// Whether there is no allocation, or one that has expired.
pub fn nothing_lasts(act: &Act<'_, '_>) -> bool
    ensures { IsTrue result ↔ NothingLasts (situation act.now) }
{
    match &act.table.allocation {
        None => true,
        Some(found) => found.lease.gone(act.moment),
    }
}

/// Whether the request is for UDP over IPv4. A value that can't be read counts as absent (own).
fn requests_udp_on_ipv4(act: &Act<'_, '_>, request: &Message<'_>) -> bool
    requires { request.now ≡ (situation act.now).arrives.payload }
    ensures { IsTrue result ↔ RequestsUdpOnIpv4 (situation act.now) }
{
    let family = family_in(request);
    transport_in(request) == Some(UDP) && (family == None || family == Some(IPV4))
}

/// Whether the address is in a relay range, and even if EVEN-PORT was requested.
fn may_be_relayed(act: &Act<'_, '_>, request: &Message<'_>, relayed: Addr) -> bool
    requires { request.now ≡ (situation act.now).arrives.payload }
    ensures { IsTrue result ↔ MayBeRelayed (situation act.now) relayed }
{
    act.policy.relays(relayed) && (request.first(EVEN_PORT).is_none() || relayed.port % 2 == 0)
}

/// Checks a new allocation (RFC 8656, section 7.2).
pub fn new_allocation<'a>(
    act: &Act<'_, '_>,
    request: &Message<'a>,
    success: &Message<'_>,
) -> Result<Made<'a>, Rule>
    requires request { request.now ≡ (situation act.now).arrives.payload }
    requires success { success.now ≡ (situation act.now).leaves.payload }
    ensures { MatchResult result
        (λ made. AllHold (new_checks (situation act.now))
        × (first_of attributes.USERNAME (arrival_parts (situation act.now)).attributes ≡ Some made.user.now)
        × (address_named XOR_RELAYED_ADDRESS (answered (situation act.now)) ≡ Some made.relayed)
        × (lifetime_of (answered (situation act.now)) ≡ Some made.seconds))
        (λ rule. FirstFails (new_checks (situation act.now)) rule) }
{
    let Some(signer) = authenticated(act, request) else {
        return Err(Rule::NotAuthentic);
    };
    if !nothing_lasts(act) {
        return Err(Rule::AllocationPresent);
    }
    if !requests_udp_on_ipv4(act, request) {
        return Err(Rule::TransportOrFamily);
    }
    let Some(relayed) = address_in(success, XOR_RELAYED_ADDRESS) else {
        return Err(Rule::Malformed);
    };
    let Some(seconds) = lifetime_in(success) else {
        return Err(Rule::Malformed);
    };
    let Some(mapped) = address_in(success, XOR_MAPPED_ADDRESS) else {
        return Err(Rule::Malformed);
    };
    if !may_be_relayed(act, request, relayed) {
        return Err(Rule::RelayedAddress);
    }
    if seconds == 0 {
        return Err(Rule::Lifetime);
    }
    if mapped != act.table.client {
        return Err(Rule::MappedAddress);
    }
    if !signed_back(act, &signer, success) {
        return Err(Rule::ResponseIntegrity);
    }
    Ok(Made {
        user: signer.user,
        relayed,
        seconds,
    })
}

/// Checks a repeated success response to the request that made the allocation (RFC 8656, section
/// 7.2).
pub fn repeated_allocation(
    act: &Act<'_, '_>,
    allocation: &Allocation,
    request: &Message<'_>,
    success: &Message<'_>,
) -> Result<(), Rule>
    requires request { request.now ≡ (situation act.now).arrives.payload }
    requires success { success.now ≡ (situation act.now).leaves.payload }
    requires found { act.now.table.now.allocation ≡ Some allocation.now }
    ensures { MatchResult result
        (λ _. AllHold (again_checks (situation act.now)))
        (λ rule. FirstFails (again_checks (situation act.now)) rule) }
{
    let Some(signer) = authenticated(act, request) else {
        return Err(Rule::NotAuthentic);
    };
    if signer.user != allocation.user.as_slice() {
        return Err(Rule::OtherUser);
    }
    let Some(relayed) = address_in(success, XOR_RELAYED_ADDRESS) else {
        return Err(Rule::Malformed);
    };
    let Some(mapped) = address_in(success, XOR_MAPPED_ADDRESS) else {
        return Err(Rule::Malformed);
    };
    if relayed != allocation.relayed {
        return Err(Rule::RelayedAddress);
    }
    if mapped != act.table.client {
        return Err(Rule::MappedAddress);
    }
    if !signed_back(act, &signer, success) {
        return Err(Rule::ResponseIntegrity);
    }
    Ok(())
}
