//! Judges whether the rules let the server act.

ghost use Rattle.std.specs.Prelude.{◌≡◌, option_map};
ghost use Rattle.audit_clients.specs.Clients.{lane_in};

mod moments;

use audit_clients::Clients;
use audit_finding::Windows;
use audit_keys::Credentials;
use audit_model::{Addr, At, Key, Policy, SightId, Sighting};
use audit_rules::{ActFault, CredRow, LaneTable, act};
use audit_seen::LaneNumber;
use audit_sightings::Intake;
use std::alloc::{AllocError, Global};

/// What acts are judged by.
#[derive(Clone, Copy)]
pub struct Judge<'a> {
    alloc: Global,
    intake: &'a Intake,
    credentials: &'a Credentials,
    clients: &'a Clients,
    windows: Windows,
}

impl<'a> Judge<'a> {
    /// A judge of the intake of these clients, with their credentials and these windows.
    pub fn new(
        alloc: Global,
        intake: &'a Intake,
        credentials: &'a Credentials,
        clients: &'a Clients,
        windows: Windows,
    ) -> Judge<'a>
        ensures intake { result.intake.now ≡ intake.now }
        ensures clients { result.clients.now ≡ clients.now }
    {
        Judge {
            alloc,
            intake,
            credentials,
            clients,
            windows,
        }
    }

    /// The intake.
    pub fn intake(&self) -> &'a Intake
        ensures { result.now ≡ self.now.intake.now }
    {
        self.intake
    }

    /// The clients, which have the lanes.
    pub fn clients(&self) -> &'a Clients
        ensures { result.now ≡ self.now.clients.now }
    {
        self.clients
    }

    /// The policy of the server.
    pub(crate) fn policy(&self) -> &'a Policy {
        self.intake.policy()
    }

    /// The sighting of an id, if there is one.
    pub(crate) fn sighting(&self, sight: SightId) -> Option<&'a Sighting> {
        self.intake.sighting(sight)
    }

    /// The lane of a client at a listen address, if it has one.
    pub fn lane_of(&self, client: Addr, listen: Addr) -> Option<LaneNumber>
        ensures { option_map (λ lane. lane.0) result ≡ lane_in self.now.clients.now.pairs (client, listen) }
    {
        Some(LaneNumber::new(self.clients.lane_of(client, listen)?))
    }

    /// Applies a response to the table, and returns whether the rules allow it. If not, the table
    /// is unchanged.
    pub fn answers(
        &self,
        lane: LaneNumber,
        table: &mut LaneTable,
        arrives: &'a Sighting,
        leaves: &Sighting,
        key: Key,
    ) -> Result<bool, AllocError> {
        match CredRow::of(self.credentials, arrives.payload.as_slice()) {
            Some(row) => self.acts(lane, table, &[row], arrives, leaves, key),
            None => self.acts(lane, table, &[], arrives, leaves, key),
        }
    }

    /// Returns whether the rules let the server relay data. The table is unchanged.
    pub fn relays(
        &self,
        lane: LaneNumber,
        table: &mut LaneTable,
        arrives: &Sighting,
        leaves: &Sighting,
        key: Key,
    ) -> Result<bool, AllocError> {
        self.acts(lane, table, &[], arrives, leaves, key)
    }

    fn acts(
        &self,
        lane: LaneNumber,
        table: &mut LaneTable,
        users: &[CredRow<'_>],
        arrives: &Sighting,
        leaves: &Sighting,
        key: Key,
    ) -> Result<bool, AllocError> {
        let at = At {
            key,
            lane: lane.value(),
            place: 0,
        };
        let policy = self.intake.policy();
        match act(self.alloc, table, users, policy, arrives, leaves, at) {
            Ok(_) => Ok(true),
            Err(ActFault::Broken(_)) => Ok(false),
            Err(ActFault::Memory) => Err(AllocError),
        }
    }
}
