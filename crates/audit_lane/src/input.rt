//! The input by which a lane is judged.

ghost use Rattle.std.specs.Prelude.{◌<◌, ◌≡◌, ◌↔◌, ◌≤◌, ◌^◌, All, IfOk, IsTrue, length, map, vec_len};
ghost use Rattle.audit_keys.specs.KeyFor.{key_for};
ghost use Rattle.audit_model.specs.declared.certificate.TheConstants.{MAX_EVENTS};
ghost use Rattle.audit_sightings.specs.Intake.{NamesWhatIsThere, taken};
ghost use Rattle.audit_lane.specs.Content.{happening, user_of};
ghost use Rattle.audit_lane.specs.Named.{IsFrom, IsInputOf};
ghost use Rattle.audit_lane.specs.UserRows.{Tells};
ghost use Rattle.audit_lane.specs.Users.{GrowsByOne, TellsItsUser};

use crate::ahead::Arrivals;
use crate::comparing::{same_events, same_policy, same_users};
use crate::users::add_user;
use audit_keys::Credentials;
use audit_model::{Addr, CertLane, Event, Key, Policy};
use audit_rules::CredRow;
use audit_sightings::{EventsAhead, Intake, Sighting};
use std::alloc::{AllocError, Global};
use std::marker::Model;
use std::sync::Arc;

/// An event of a lane, with the sightings that it names.
#[derive(Clone, Copy, Debug)]
pub enum LaneEvent<'a> {
    /// A datagram arrives at the server.
    In {
        sighting: &'a Sighting,
        /// The number of the user that it names, among the lane's users; None if it is no request,
        /// or names nobody.
        user: Option<u32>,
        key: Key,
    },
    /// An act: the server sends a departure for an arrival.
    Act {
        arrives: &'a Sighting,
        leaves: &'a Sighting,
        key: Key,
    },
    /// A departure leaves the server.
    Out {
        sighting: &'a Sighting,
        key: Key,
    },
}

/// All that a lane is judged by.
#[derive(Drop)]
pub struct LaneInput<'a> {
    number: u32,
    client: Addr,
    listen: Addr,
    policy: &'a Policy,
    /// The user of a realm, with their key, that each request names, if the credentials have one,
    /// in the order of the arrivals.
    users: Vec<CredRow<'a>>,
    events: Vec<LaneEvent<'a>>,
}

impl<'a> Model for LaneInput<'a> {
    ghost use Rattle.std.specs.Prelude.{◌≤◌, length, map};
    ghost use Rattle.audit_model.specs.declared.certificate.TheConstants.{MAX_EVENTS};
    ghost use Rattle.audit_lane.specs.Content.{Content, happening, user_of};

    ghost Value = { Content };

    ghost view = { λ i. record {
      number = i.number;
      client = i.client;
      listen = i.listen;
      policy = i.policy.now;
      users = map user_of i.users.items;
      events = map happening i.events.items;
    } };

    ghost invariant = { λ i. length i.events.items ≤ MAX_EVENTS };
}

impl<'a> LaneInput<'a> {
    /// The lane's number in the certificate.
    pub fn number(&self) -> u32
        ensures { result ≡ self.now.number }
    {
        self.number
    }

    pub fn client(&self) -> Addr
        ensures { result ≡ self.now.client }
    {
        self.client
    }

    pub fn listen(&self) -> Addr
        ensures { result ≡ self.now.listen }
    {
        self.listen
    }

    pub fn policy(&self) -> &Policy
        ensures { result.now ≡ self.now.policy }
    {
        self.policy
    }

    pub fn users(&self) -> &[CredRow<'a>]
        ensures { map user_of result.now ≡ self.now.users }
    {
        self.users.as_slice()
    }

    pub fn events(&self) -> &[LaneEvent<'a>]
        ensures events { map happening result.now ≡ self.now.events }
        ensures few { length result.now ≤ MAX_EVENTS }
    {
        self.events.as_slice()
    }

    /// Whether both have the same content. It compares every payload.
    pub fn equals(&self, other: &LaneInput<'_>) -> bool
        ensures { IsTrue result ↔ (self.now ≡ other.now) }
    {
        self.number == other.number
            && self.client == other.client
            && self.listen == other.listen
            && same_policy(self.policy, other.policy)
            && same_users(self.users.as_slice(), other.users.as_slice())
            && same_events(self.events.as_slice(), other.events.as_slice())
    }
}

/// The event with the sightings that it names. The user that a request names is added to the users.
fn with_sightings<'a>(
    intake: &'a Intake,
    credentials: &Credentials,
    users: &mut Vec<CredRow<'a>>,
    event: Event,
) -> Result<LaneEvent<'a>, AllocError>
    requires named { NamesWhatIsThere (taken intake.now) event }
    requires few { vec_len users.now < 2 ^ 32 }
    ensures from { IfOk result (λ found. IsFrom (taken intake.now) event (happening found)) }
    ensures user { IfOk result (TellsItsUser (key_for credentials.now) users.new.items) }
    ensures grows { IfOk result (λ _. GrowsByOne users.old.items users.new.items) }
{
    match event {
        Event::In { sight, key } => {
            let sighting = intake.sighting(sight).unwrap();
            let user = add_user(users, credentials, sighting.payload.as_slice())?;
            Ok(LaneEvent::In {
                sighting,
                user,
                key,
            })
        }
        Event::Act { sight, gives, key } => Ok(LaneEvent::Act {
            arrives: intake.sighting(sight).unwrap(),
            leaves: intake.sighting(gives).unwrap(),
            key,
        }),
        Event::Out { sight, key } => Ok(LaneEvent::Out {
            sighting: intake.sighting(sight).unwrap(),
            key,
        }),
    }
}

/// The input of the lane of that number. Its events must name sightings that exist, with the right
/// direction.
///
/// Each request has the user that it names, so that judging an act needs no look-up, and an arrival
/// that many acts of a certificate name is read once. It takes log n time in the credentials for
/// each request, and time in its length.
pub fn lane_input<'a>(
    alloc: Global,
    number: u32,
    lane: &CertLane,
    intake: &'a Intake,
    credentials: &Credentials,
) -> Result<Arc<LaneInput<'a>>, AllocError>
    requires few { length lane.now.events ≤ MAX_EVENTS }
    requires named { All (NamesWhatIsThere (taken intake.now)) lane.now.events }
    ensures of { IfOk result (λ input. IsInputOf (taken intake.now) number lane.now input.value) }
    ensures users { IfOk result (λ input. All (Tells (key_for credentials.now) input.value.users) input.value.events) }
{
    let mut users = Vec::new(alloc);
    let mut events = Vec::with_capacity(alloc, lane.events.len())?;
    let mut ahead = EventsAhead::new(Arrivals { intake }, lane.events.as_slice());
    'events: for event in lane.events.as_slice() {
        ahead.advance();
        events.push(with_sightings(intake, credentials, &mut users, *event)?)?;
    }
    let input = LaneInput {
        number,
        client: lane.client,
        listen: lane.listen,
        policy: intake.policy(),
        users,
        events,
    };
    Ok(Arc::new(alloc, input)?)
}
