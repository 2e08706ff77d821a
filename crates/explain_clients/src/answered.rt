//! How many requests the server responds to.

use audit_model::{Addr, Side, Sighting};
use audit_sightings::Intake;
use audit_stun::{Class, message};
use std::alloc::{AllocError, Global};
use std::collections::BTreeMap;

/// The requests of captures, and the clients that sent them. A retransmitted request counts once.
#[derive(Clone, Copy, Debug)]
pub struct Answered {
    pub requests: u64,
    /// Those of them that have a response.
    pub answered: u64,
    /// Clients at a listen address that send requests.
    pub clients: u64,
    /// Those of them to which nothing is sent.
    pub unanswered_clients: u64,
}

impl Answered {
    /// The share of the requests that have a response, in percent, rounded down; 0 if there are no
    /// requests.
    pub fn percent(&self) -> u64 {
        match self.requests {
            0 => 0,
            requests => self.answered.saturating_mul(100) / requests,
        }
    }
}

/// A client and its listen address.
#[derive(Clone, Copy, PartialEq, Eq, PartialOrd, Ord)]
struct Ends {
    client: Addr,
    listen: Addr,
}

/// A request by its client and its transaction id.
#[derive(Clone, Copy, PartialEq, Eq, PartialOrd, Ord)]
struct Transaction {
    ends: Ends,
    id: [u8; 12],
}

/// The requests and clients of the captures so far.
#[derive(Drop)]
struct Counter {
    /// Whether each has a response.
    requests: BTreeMap<Transaction, bool>,
    /// Whether something is sent to each.
    clients: BTreeMap<Ends, bool>,
}

/// How many requests of the captures have a response. It takes n log n in the sightings.
pub fn count_answered(alloc: Global, intake: &Intake) -> Result<Answered, AllocError> {
    let mut counter = Counter {
        requests: BTreeMap::new(alloc),
        clients: BTreeMap::new(alloc),
    };
    for iface in 0..intake.interfaces() {
        for sighting in intake.interface(iface) {
            counter.note_request(intake, sighting)?;
        }
    }
    for iface in 0..intake.interfaces() {
        for sighting in intake.interface(iface) {
            counter.note_departure(sighting);
        }
    }
    Ok(counter.sum())
}

impl Counter {
    /// Records a request, and its client.
    fn note_request(&mut self, intake: &Intake, sighting: &Sighting) -> Result<(), AllocError> {
        if sighting.side != Side::Arrives || !intake.policy().listens(sighting.to) {
            return Ok(());
        }
        let Some(request) = message(sighting.payload.as_slice()) else {
            return Ok(());
        };
        if request.class() != Class::Request {
            return Ok(());
        }
        let ends = Ends {
            client: sighting.from,
            listen: sighting.to,
        };
        let id = request.tid();
        self.requests.insert(Transaction { ends, id }, false)?;
        self.clients.insert(ends, false)?;
        Ok(())
    }

    /// Records a departure to a client that sends requests.
    fn note_departure(&mut self, sighting: &Sighting) {
        if sighting.side != Side::Leaves {
            return;
        }
        let ends = Ends {
            client: sighting.to,
            listen: sighting.from,
        };
        let Some(is_sent_to) = self.clients.get_mut(&ends) else {
            return;
        };
        *is_sent_to = true;
        let Some(response) = message(sighting.payload.as_slice()) else {
            return;
        };
        if !matches!(response.class(), Class::Success | Class::Error) {
            return;
        }
        let id = response.tid();
        if let Some(is_answered) = self.requests.get_mut(&Transaction { ends, id }) {
            *is_answered = true;
        }
    }

    fn sum(&self) -> Answered {
        Answered {
            requests: self.requests.len() as u64,
            answered: self.requests.values().filter(|is| **is).count() as u64,
            clients: self.clients.len() as u64,
            unanswered_clients: self.clients.values().filter(|is| !**is).count() as u64,
        }
    }
}
