//! Lines about how many requests of a user are signed: R2.

use crate::case::Case;
use crate::line::Story;
use crate::scene::Scene;
use audit_keys::signed;
use audit_model::Sighting;
use audit_rules::CredRow;
use audit_stun::numbers::attribute::{NONCE, REALM, USERNAME};
use audit_stun::{Class, message};
use std::alloc::AllocError;

/// Why a request isn't signed by a user.
#[derive(Clone, Copy, Debug, PartialEq, Eq)]
pub enum Unsigned {
    /// It isn't a STUN message.
    NoMessage,
    /// It names no user and realm.
    NoUser,
    /// The credentials lack the user.
    UnknownUser,
    NoNonce,
    /// Its integrity isn't that of the user's password.
    OtherIntegrity,
}

/// Why a request isn't signed by a user.
pub fn why_unsigned(scene: &Scene<'_>) -> Unsigned {
    let Some(request) = scene.message_in() else {
        return Unsigned::NoMessage;
    };
    if request.first(USERNAME).is_none() || request.first(REALM).is_none() {
        return Unsigned::NoUser;
    }
    if CredRow::of(scene.case.users, scene.arrives.payload.as_slice()).is_none() {
        return Unsigned::UnknownUser;
    }
    if request.first(NONCE).is_none() {
        Unsigned::NoNonce
    } else {
        Unsigned::OtherIntegrity
    }
}

/// Requests that name one user and realm.
#[derive(Clone, Copy)]
struct Requests {
    all: u64,
    /// The number of them that are signed with the key in the credentials.
    signed: u64,
}

/// Whether a request that names the user and the realm is signed with their key; `None` if it
/// doesn't name them.
fn signed_by(case: Case<'_>, sighting: &Sighting, user: &[u8], realm: &[u8]) -> Option<bool> {
    let request = message(sighting.payload.as_slice())?;
    if request.class() != Class::Request {
        return None;
    }
    if request.first(USERNAME)? != user || request.first(REALM)? != realm {
        return None;
    }
    let Some(row) = CredRow::of(case.users, sighting.payload.as_slice()) else {
        return Some(false);
    };
    match row.key.chosen_by(&request) {
        Some(key) => Some(signed(&request, key)),
        None => Some(false),
    }
}

/// The requests of an interface that name the user and the realm, added to those before.
fn count_on(case: Case<'_>, iface: u32, user: &[u8], realm: &[u8], before: Requests) -> Requests {
    let mut count = before;
    for sighting in case.intake.interface(iface) {
        if let Some(is_signed) = signed_by(case, sighting, user, realm) {
            count.all = count.all.saturating_add(1);
            if is_signed {
                count.signed = count.signed.saturating_add(1);
            }
        }
    }
    count
}

/// The requests of all interfaces that name the user and the realm of a request.
fn requests_like(scene: &Scene<'_>) -> Option<Requests> {
    let request = scene.message_in()?;
    let user = request.first(USERNAME)?;
    let realm = request.first(REALM)?;
    let mut count = Requests { all: 0, signed: 0 };
    for iface in 0..scene.case.intake.interfaces() {
        count = count_on(scene.case, iface, user, realm, count);
    }
    Some(count)
}

/// Whether a request that names the same user is signed with a password of the credentials.
pub fn has_signed(scene: &Scene<'_>) -> bool {
    match requests_like(scene) {
        Some(count) => count.signed > 0,
        None => false,
    }
}

/// Adds how many requests name the user of a request, and how many of them are signed.
pub fn add_signed(scene: &Scene<'_>, story: &mut Story) -> Result<(), AllocError> {
    let Some(Requests { all, signed }) = requests_like(scene) else {
        return Ok(());
    };
    let alloc = story.alloc();
    story.say(format!(in alloc;
        "  requests in these captures that name this user and realm: {all}; signed by a password that was given: {signed}"
    )?)
}
