//! The datagrams with missing fragments.

ghost use Rattle.std.specs.Prelude.{◌≡◌, None, Some, IsTrue, OnOk, if◌then◌else◌};
ghost use Rattle.prep_fragments.specs.declared.fragment.Key.{Key as AnyKey};

use crate::begun::Begun;
use crate::fragment::Key;
use std::alloc::{AllocError, Global};
use std::collections::BTreeMap;

/// Incomplete datagrams by their keys. Strangers choose the keys, so the map is ordered.
#[derive(Drop)]
pub struct Opens {
    opens: BTreeMap<Key, Begun>,
}

impl Opens {
    ghost use Rattle.prep_fragments.specs.Parts.{is_same};
    ghost use Rattle.prep_fragments.specs.Opens.{open_at};

    /// No datagrams. It takes no memory.
    #[tactic(auto, unfolding(crate::specs::Opens::open_at))]
    pub fn new(alloc: Global) -> Self
        ensures { (key : AnyKey) → open_at result key ≡ None }
    {
        Opens {
            opens: BTreeMap::new(alloc),
        }
    }

    /// The number of datagrams.
    pub fn len(&self) -> usize {
        self.opens.len()
    }

    /// Whether there are none.
    #[tactic(auto, unfolding(crate::specs::Opens::open_at))]
    pub fn is_empty(&self) -> bool
        ensures { IsTrue result → (key : AnyKey) → open_at self.now key ≡ None }
    {
        self.opens.is_empty()
    }

    /// Removes one, if it is there. It takes logarithmic time.
    #[tactic(auto, unfolding(crate::specs::Opens::open_at))]
    pub fn take_out(&mut self, key: Key) -> Option<Begun>
        ensures found { result ≡ open_at self.old key }
        ensures others { (other : AnyKey) → open_at self.new other ≡ (if is_same key other then None else open_at self.old other) }
    {
        self.opens.remove(&key)
    }

    /// Inserts one, in place of any other with its key. It takes logarithmic time.
    #[tactic(auto, unfolding(crate::specs::Opens::open_at))]
    pub fn put(&mut self, key: Key, begun: Begun) -> Result<(), AllocError>
        ensures { OnOk result ((other : AnyKey) → open_at self.new other ≡ (if is_same key other then Some begun else open_at self.old other)) }
    {
        self.opens.insert(key, begun)?;
        Ok(())
    }
}
