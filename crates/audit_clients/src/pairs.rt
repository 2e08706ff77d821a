//! Pairs of addresses, each once, in the order in which they are added.

ghost use Rattle.std.specs.Prelude.{◌≡◌, [], position, OnOk, OnErr};
ghost use Rattle.std.specs.List.{IsDistinct};
ghost use Rattle.indexmap.specs.IndexSet.{insert_key};
ghost use Rattle.audit_clients.specs.Clients.{same};

use audit_model::Addr;
use indexmap::IndexSet;
use std::alloc::{AllocError, Global};
use std::hash::RandomState;
use std::marker::Model;

/// Pairs of a client and a listen address, each once, in the order in which they are added.
///
/// Senders of datagrams choose the client's address. Without the seed, nobody can choose addresses
/// whose hashes collide.
#[derive(Drop)]
pub struct Pairs {
    set: IndexSet<(Addr, Addr), RandomState>,
}

impl Model for Pairs {
    ghost use Rattle.std.specs.Prelude.{List};
    ghost use Rattle.audit_clients.specs.Clients.{Pair};

    ghost Value = { List Pair };

    ghost view = { λ pairs. pairs.set.keys };
}

impl Pairs {
    /// No pairs. It takes no memory.
    pub fn new(alloc: Global, seed: RandomState) -> Pairs
        ensures { result ≡ [] }
    {
        Pairs {
            set: IndexSet::with_hasher(alloc, seed),
        }
    }

    /// All pairs, in order.
    pub fn as_slice(&self) -> &[(Addr, Addr)]
        ensures pairs { result.now ≡ self.now }
        ensures apart { IsDistinct same self.now }
    {
        self.set.as_slice()
    }

    /// The index of a pair, if it is there. The cost is independent of the number of pairs, with a
    /// seed that nobody knew before.
    pub fn place_of(&self, client: Addr, listen: Addr) -> Option<usize>
        ensures { result ≡ position (same (client, listen)) self.now }
    {
        self.set.get_index_of(&(client, listen))
    }

    /// Appends a pair unless it is there, at the cost of `place_of`. Without memory nothing is
    /// changed.
    pub fn insert(&mut self, client: Addr, listen: Addr) -> Result<(), AllocError>
        ensures ok { OnOk result (self.new ≡ insert_key same self.old (client, listen)) }
        ensures err { OnErr result (self.new ≡ self.old) }
    {
        self.set.insert((client, listen))?;
        Ok(())
    }
}
