//! A table of leases by key.

ghost use Rattle.std.specs.Prelude.{◌≡◌, Bool, List, [], true, false, IsTrue, IsSome, IfOk, OnOk, OnErr, None};
ghost use Rattle.std.specs.List.{AllZip};
ghost use Rattle.std.specs.declared.cmp.Ordering.TheVariants.{Equal};
ghost use Rattle.audit_expiry.specs.Leases.{value_at, Puts, PutsAll, Removes, Keeps, Somewhere, Everywhere};
ghost use Rattle.audit_expiry.specs.Growth.{Adds, Grew, HasEach, KeepsOthers};

use crate::lease::Lease;
use std::alloc::{AllocError, Global};
use std::collections::BTreeMap;
use std::marker::Model;

/// Keys of which two compare as the same only if they are equal.
pub trait ExactKey: Ord + Copy {
    ghost exact: { (one other : Self) → Self.cmp one other ≡ Equal → one ≡ other };
}

impl ExactKey for u16 {
    ghost use Rattle.std.proofs.lemmas.Map.Lookups.{exact_unsigned};

    ghost exact = { exact_unsigned };
}

impl ExactKey for u32 {
    ghost use Rattle.std.proofs.lemmas.Map.Lookups.{exact_unsigned};

    ghost exact = { exact_unsigned };
}

/// A lease of each key, or a value with a lease. Contracts see the list of its entries, in the
/// order of the keys, so that two tables are equal if they have the same at each key.
#[derive(Debug, Drop)]
pub struct Leases<K: Ord, V = Lease> {
    values: BTreeMap<K, V>,
    alloc: Global,
}

impl<K: Ord, V> Model for Leases<K, V> {
    ghost use Rattle.std.specs.Prelude.{List};

    ghost Value = { List (K × V) };

    ghost view = { λ leases. leases.values.entries };
}

impl<K: Ord + Copy, V: Copy> Leases<K, V> {
    /// No keys. Allocates no memory.
    pub fn new(alloc: Global) -> Self
        ensures { result ≡ [] }
    {
        Leases {
            values: BTreeMap::new(alloc),
            alloc,
        }
    }

    /// The value of the key. It takes logarithmic time.
    pub fn get(&self, key: K) -> Option<V>
        ensures { result ≡ value_at K.cmp self.now key }
    {
        self.values.get(&key).copied()
    }

    /// Sets the value of the key, in place of any other; a key that has one already needs no
    /// memory. If memory is refused, nothing changes. It takes logarithmic time.
    pub fn put(&mut self, key: K, value: V) -> Result<(), AllocError>
        ensures ok { OnOk result (Puts K.cmp self.old self.new key value) }
        ensures err { OnErr result (self.new ≡ self.old) }
        ensures full_only { OnErr result (value_at K.cmp self.old key ≡ None) }
    {
        self.values.insert(key, value)?;
        Ok(())
    }

    /// Copies the table. It takes time and memory in proportion to the number of keys.
    pub fn copied(&self) -> Result<Self, AllocError>
        ensures { IfOk result (λ same. AllZip (λ one other. K.is_clone one.0 other.0 × V.is_clone one.1 other.1) self.now same) }
    {
        Ok(Leases {
            values: self.values.clone()?,
            alloc: self.alloc,
        })
    }

    /// Removes the key. It takes logarithmic time.
    pub fn remove(&mut self, key: K)
        ensures { Removes K.cmp self.old self.new key }
    {
        self.values.remove(&key);
    }

    /// Keeps the values that pass the test, and removes the others. It takes time in proportion to
    /// the number of keys.
    pub fn retain<F: Fn(V) -> bool>(&mut self, test: F)
    where
        F: Drop,
        requires { F.IsAlwaysCallable test }
        ensures { (keep : V → Bool) → ((value : V) (answer : Bool) → F.post test value answer → answer ≡ keep value) → Keeps K.cmp self.old self.new keep }
    {
        self.values.retain(|_, value| test(*value));
    }
}

/// Operations on several keys at once.
impl<K: Ord + Copy, V: Copy> Leases<K, V> {
    /// Sets the value of each of the keys, as `put` does. If memory is refused for any of them,
    /// nothing changes. It takes logarithmic time for each key, and notes the keys that are new.
    pub fn put_all(&mut self, keys: &[K], value: V) -> Result<(), AllocError>
        ensures ok { OnOk result (PutsAll K.cmp self.old self.new keys.now value) }
        ensures err { OnErr result (self.new ≡ self.old) }
    {
        self.add_missing(keys, value)?;
        self.overwrite(keys, value);
        Ok(())
    }

    // Adds those keys that aren't there yet, or none of them.
    fn add_missing(&mut self, keys: &[K], value: V) -> Result<(), AllocError>
        ensures has { OnOk result (HasEach K.cmp self.new keys.now) }
        ensures others { OnOk result (KeepsOthers K.cmp self.old self.new keys.now) }
        ensures err { OnErr result (self.new ≡ self.old) }
    {
        let mut added = Vec::new(self.alloc);
        for key in keys {
            if let Err(refused) = self.add(*key, value, &mut added) {
                self.take_out(added);
                return Err(refused);
            }
        }
        Ok(())
    }

    // Sets the value of keys that are there, which needs no memory.
    fn overwrite(&mut self, keys: &[K], value: V)
        requires { HasEach K.cmp self.old keys.now }
        ensures { PutsAll K.cmp self.old self.new keys.now value }
    {
        for key in keys {
            let _never_refused = self.put(*key, value);
        }
    }

    // Adds the key if it isn't there yet, and then notes it.
    fn add(&mut self, key: K, value: V, added: &mut Vec<K>) -> Result<(), AllocError>
        ensures ok { OnOk result (Adds K.cmp self.old self.new key value added.old.items added.new.items) }
        ensures err { OnErr result (self.new ≡ self.old) }
        ensures noted { OnErr result (added.new.items ≡ added.old.items) }
    {
        if self.values.contains_key(&key) {
            return Ok(());
        }
        added.push(key)?;
        if let Err(refused) = self.values.insert(key, value) {
            added.pop();
            return Err(refused.into());
        }
        Ok(())
    }

    // Removes the keys that were added, the last first.
    fn take_out(&mut self, mut added: Vec<K>)
        ensures { (before : List (K × V)) → (value : V) → Grew K.cmp value before added.items self.old → self.new ≡ before }
    {
        while let Some(last) = added.pop() {
            self.values.remove(&last);
        }
    }
}

impl<K: Ord + Copy, V: Copy> Leases<K, V> {
    /// The entries in the order of their keys. It takes time and memory in proportion to their
    /// number.
    pub fn to_vec(&self) -> Result<Vec<(K, V)>, AllocError>
        ensures { IfOk result (λ entries. entries.items ≡ self.now) }
    {
        let mut entries = Vec::new(self.alloc);
        for (key, value) in &self.values {
            entries.push((*key, *value))?;
        }
        Ok(entries)
    }
}

impl<K: ExactKey, V: Copy> Leases<K, V> {
    /// Whether the test holds for some key and its value. It takes time in proportion to the number
    /// of keys.
    pub fn any<F: Fn(K, V) -> bool>(&self, test: F) -> bool
    where
        F: Drop,
        requires { F.IsAlwaysCallable test }
        ensures some { IsTrue result → Somewhere K.cmp self.now (λ key value. F.post test key value true) }
        ensures none { result ≡ false → Everywhere K.cmp self.now (λ key value. F.post test key value false) }
    {
        for (key, value) in &self.values {
            if test(*key, *value) {
                return true;
            }
        }
        false
    }
}
