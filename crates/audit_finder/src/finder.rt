//! The finder for captures that grow.

ghost use Rattle.std.specs.Prelude.{◌≡◌, ◌≤◌, [], take, drop, length, All, IfOk, OnOk};
ghost use Rattle.std.specs.List.{IsDistinct};
ghost use Rattle.audit_sightings.specs.Intake.{taken, NamesWhatIsThere};
ghost use Rattle.audit_model.specs.declared.certificate.TheConstants.{MAX_LANES};
ghost use Rattle.audit_clients.specs.Clients.{same, with_new, row_lengths};
ghost use Rattle.audit_finder.specs.Found.{AreThere};
ghost use Rattle.audit_finding.specs.Turn.{StandInside};

use crate::finding::extension;
use crate::turn::Turn;
use audit_clients::Clients;
use audit_cuts::Carried;
use audit_finding::Windows;
use audit_keys::Credentials;
use audit_model::{Addr, Extension, Listed};
use audit_sightings::Intake;
use audit_walk::{Ahead, Judge, Search};
use std::alloc::{AllocError, Global};
use std::hash::RandomState;

/// The finder's state for captures that grow.
#[derive(Drop)]
pub struct Finder {
    clients: Clients,
    search: Search,
    ahead: Ahead,
    alloc: Global,
}

/// The clients that were carried over a cut, then the ends of the departures that are owed, and
/// then the clients in the intake. A departure that is owed to a peer has a lane of its own, since
/// its client may be gone.
fn clients_from(
    alloc: Global,
    seed: RandomState,
    intake: &Intake,
    carried: &Carried,
) -> Result<Clients, AllocError>
    ensures { IfOk result (λ clients. clients.looked.items ≡ row_lengths (taken intake.now)) }
{
    let mut clients = Clients::new(alloc, seed);
    for client in &carried.clients {
        clients
            .pairs
            .insert(client.pair.client, client.pair.listen)?;
    }
    for came in &carried.owed {
        if let Some(leaves) = intake.sighting(came.sight) {
            clients.pairs.insert(leaves.to, leaves.from)?;
        }
    }
    clients.take_in(alloc, intake)?;
    Ok(clients)
}

impl Finder {
    /// Nothing was found yet. It takes no memory. The seed is for the hash table of clients.
    pub fn new(alloc: Global, seed: RandomState) -> Finder
        ensures clients { result.clients.pairs ≡ [] }
        ensures looked { result.clients.looked.items ≡ [] }
        ensures horizon { result.search.placed_to ≡ None }
    {
        Finder {
            clients: Clients::new(alloc, seed),
            search: Search::new(alloc),
            ahead: Ahead::new(alloc),
            alloc,
        }
    }

    /// A finder that goes on from what was carried over a cut: with the machine that goes on from
    /// it, its events are judged as if the walk had begun before the cut.
    ///
    /// The intake has the sightings from the bases of the interfaces on, at least those that wait.
    /// Those that are placed get no event. It takes n log n time in what was carried and in the
    /// sightings of the intake.
    pub fn resume(
        alloc: Global,
        seed: RandomState,
        intake: &Intake,
        credentials: &Credentials,
        carried: &Carried,
    ) -> Result<Finder, AllocError>
        ensures looked { IfOk result (λ finder. finder.clients.looked.items ≡ row_lengths (taken intake.now)) }
    {
        let clients = clients_from(alloc, seed, intake, carried)?;
        let judge = Judge::new(alloc, intake, credentials, &clients, Windows::Whole);
        let search = Search::resume(alloc, &judge, carried)?;
        Ok(Finder {
            clients,
            search,
            ahead: Ahead::resume(alloc, &carried.interfaces)?,
            alloc,
        })
    }

    /// Makes the event of each sighting that has none yet and has a moment up to the horizon.
    ///
    /// Sightings that are new since the last call are placed after the horizon of that call. The
    /// new lanes are the clients whose first arrivals are among these, in the order of interface
    /// and index; there are at most 65,536 lanes. After an `AllocError` a finder can't continue. It
    /// takes n log n in the new sightings.
    pub fn extend(
        &mut self,
        intake: &Intake,
        credentials: &Credentials,
        horizon: u64,
    ) -> Result<Extension, AllocError>
        ensures lanes { IfOk result (λ found. found.lanes ≡ drop (length self.old.clients.pairs)
            (take MAX_LANES (with_new self.old.clients.looked.items (taken intake.now) self.old.clients.pairs))) }
        ensures apart { IfOk result (λ found. IsDistinct same found.lanes) }
        ensures few { IfOk result (λ found. length found.lanes ≤ MAX_LANES) }
        ensures events { IfOk result (λ found. All (λ e. NamesWhatIsThere (taken intake.now) e.1) found.events) }
        ensures drops { IfOk result (λ found. AreThere (taken intake.now) found.drops) }
        ensures clients { OnOk result (self.new.clients.pairs ≡ with_new self.old.clients.looked.items (taken intake.now) self.old.clients.pairs) }
        ensures looked { OnOk result (self.new.clients.looked.items ≡ row_lengths (taken intake.now)) }
        // All of it is after the last horizon, and no later than this one.
        ensures inside { IfOk result (StandInside self.old.search.placed_to horizon) }
        // The next call returns events after this horizon.
        ensures horizon { OnOk result (self.new.search.placed_to ≡ Some horizon) }
    {
        let known = self.clients.len();
        self.clients.take_in(self.alloc, intake)?;
        let judge = Judge::new(
            self.alloc,
            intake,
            credentials,
            &self.clients,
            Windows::Whole,
        );
        let last = self.search.placed_to();
        let portion = self.search.go(&judge, &mut self.ahead, horizon)?;
        let turn = Turn::new(last, horizon);
        let lanes = self.clients.lanes_from(known);
        extension(self.alloc, intake, lanes, portion, turn)
    }

    /// The clients of the lanes so far. Those of a finder that goes on from a cut begin with lanes
    /// that `extend` doesn't return.
    pub fn lanes(&self) -> &[(Addr, Addr)]
        ensures { result.now ≡ take MAX_LANES self.now.clients.pairs }
    {
        self.clients.lanes()
    }
}
