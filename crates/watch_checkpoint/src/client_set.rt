//! The clients and the relayed addresses of the lines before.

ghost use Rattle.std.specs.Prelude.{◌≡◌, [], ◌∷◌, ◌++◌, List, Ok, MatchResult, OnOk, ◌||◌};
ghost use Rattle.audit_text.specs.Reading.{UnlessMemory};
ghost use Rattle.watch_checkpoint.specs.Content.{Tenant};
ghost use Rattle.watch_checkpoint.specs.Adding.{Knows, HasPairs, HasHeld, new_client, free_address, claimed, tenant};
ghost use Rattle.watch_checkpoint.specs.Fault.{is_memory};

use crate::entry::Holder;
use crate::fault::LineKind;
use audit_model::{Addr, LanePairs, Pair};
use std::alloc::Global;
use std::collections::BTreeSet;

/// The 5-tuples of clients, and the relayed transport addresses of their usable allocations.
#[derive(Drop)]
pub struct ClientSet {
    pub(crate) pairs: LanePairs,
    pub(crate) held: BTreeSet<Addr>,
}

/// Adds the 5-tuple of a client, which is none of those before it.
fn add_pair(pairs: &mut LanePairs, holder: &Holder) -> Result<(), LineKind>
    ensures { (clients : List Tenant) → HasPairs pairs.old clients → MatchResult result
        (λ _. (new_client holder.now clients ≡ Ok tt) × HasPairs pairs.new (clients ++ tenant holder.now ∷ []))
        (λ kind. UnlessMemory is_memory kind (new_client holder.now clients)) }
{
    let Pair { client, listen } = holder.pair;
    if pairs.contains(client, listen) {
        return Err(LineKind::ClientDouble);
    }
    pairs.insert(client, listen)?;
    Ok(())
}

/// Adds the relayed address of a client if its allocation is usable. No usable allocation before it
/// has the address.
fn add_address(
    held: &mut BTreeSet<Addr>,
    grace: u64,
    moment: u64,
    holder: &Holder,
) -> Result<(), LineKind>
    ensures { (clients : List Tenant) → HasHeld held.old grace moment clients → MatchResult result
        (λ _. (free_address grace moment holder.now clients ≡ Ok tt) × HasHeld held.new grace moment (clients ++ tenant holder.now ∷ []))
        (λ kind. UnlessMemory is_memory kind (free_address grace moment holder.now clients)) }
{
    if !holder.lease.usable(moment, grace) {
        return Ok(());
    }
    if held.contains(&holder.relayed) {
        return Err(LineKind::AddressHeld);
    }
    held.insert(holder.relayed)?;
    Ok(())
}

impl ClientSet {
    ghost use Rattle.std.specs.Prelude.{ℕ};

    /// No clients. Allocates no memory.
    pub fn new(alloc: Global) -> ClientSet
        ensures { (grace moment : ℕ) → Knows result grace moment [] }
    {
        ClientSet {
            pairs: LanePairs::new(alloc),
            held: BTreeSet::new(alloc),
        }
    }

    /// Adds a client that may come after those before it. It takes logarithmic time in their
    /// number.
    pub fn claim(&mut self, grace: u64, moment: u64, holder: &Holder) -> Result<(), LineKind>
        ensures { (clients : List Tenant) → Knows self.old grace moment clients → MatchResult result
            (λ _. (claimed grace moment holder.now clients ≡ Ok tt) × Knows self.new grace moment (clients ++ tenant holder.now ∷ []))
            (λ kind. UnlessMemory is_memory kind (claimed grace moment holder.now clients)) }
    {
        add_pair(&mut self.pairs, holder)?;
        add_address(&mut self.held, grace, moment, holder)
    }
}
