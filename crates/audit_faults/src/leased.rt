//! Messages that request leases or grant them, by key.

ghost use Rattle.std.specs.Prelude.{◌≡◌, ◌↔◌, IsTrue, MatchOption};
ghost use Rattle.audit_faults.specs.Leased.{IsLeaseMethod, IsLeaseMessage};

use crate::keyed::ByKey;
use crate::values::message_in;
use audit_stun::numbers::method::{ALLOCATE, CHANNEL_BIND, CREATE_PERMISSION};
use audit_stun::{Class, Message};

/// Whether a success response of the method grants a lease.
fn grants(method: u16) -> bool
    ensures { IsTrue result ↔ IsLeaseMethod method }
{
    method == ALLOCATE || method == CREATE_PERMISSION || method == CHANNEL_BIND
}

/// The message of a payload, if it is of the class, and of a method that grants a lease.
pub fn lease_message(payload: &[u8], class: Class) -> Option<Message<'_>>
    ensures { MatchOption result (IsLeaseMessage class payload.now → ⊥)
        (λ found. (found ≡ payload.now) × IsLeaseMessage class payload.now) }
{
    let found = message_in(payload)?;
    if found.class() == class && grants(found.method()) {
        Some(found)
    } else {
        None
    }
}

/// The success responses that may grant leases, and the requests that have one.
#[derive(Clone, Copy)]
pub struct Leases<'a> {
    pub answers: ByKey<'a>,
    pub requests: ByKey<'a>,
}
