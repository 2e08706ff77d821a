//! The server's state for each client.

ghost use Rattle.std.specs.Prelude.{◌≡◌, ◌≢◌, Some, None, IfOk, OnOk, option_copied, is_some};
ghost use Rattle.audit_model.specs.declared.pair.Pair.{Pair as Client};
ghost use Rattle.audit_model.specs.Sames.{same_client};
ghost use Rattle.audit_server.specs.State.{put};
ghost use Rattle.audit_rules.specs.declared.table.LaneTable.{LaneTable as Table};
ghost use Rattle.audit_rules.specs.Effect.{standing};
ghost use Rattle.audit_cuts.specs.Carried as carried;
ghost use Rattle.audit_machine.specs.Tables.{table_of, allocation_of, AreOwn, AreTablesPurged};

use crate::clients::client_of;
use audit_cuts::Client as Carried;
use audit_model::{Addr, Pair};
use audit_rules::LaneTable;
use std::alloc::{AllocError, Global};
use std::collections::BTreeMap;

/// A table for each client that has one.
#[derive(Drop)]
pub struct Tables {
    tables: BTreeMap<(Addr, Addr), LaneTable>,
}

/// The table, or an empty one of the client if there is none.
fn or_empty(entry: Option<LaneTable>, pair: Pair) -> LaneTable
    ensures some { (table : Table) → entry ≡ Some table → result ≡ table }
    ensures none { entry ≡ None → standing result ≡ record { client = pair.client; listen = pair.listen; lane = 0; allocation = None; tenancy = None } }
{
    match entry {
        Some(table) => table,
        None => LaneTable::new(0, pair.client, pair.listen),
    }
}

impl Tables {
    /// No tables. Allocates no memory.
    pub fn new(alloc: Global) -> Tables
        ensures { (c : Client) → table_of result c ≡ None }
    {
        Tables {
            tables: BTreeMap::new(alloc),
        }
    }

    /// The table of a client.
    pub fn get(&self, pair: Pair) -> Option<&LaneTable>
        ensures { option_copied result ≡ table_of self.now pair }
    {
        self.tables.get(&(pair.client, pair.listen))
    }

    /// Takes the table of a client out.
    fn remove(&mut self, pair: Pair) -> Option<LaneTable>
        ensures value { result ≡ table_of self.old pair }
        ensures rest { (c : Client) → table_of self.new c ≡ put same_client (table_of self.old) pair None c }
    {
        self.tables.remove(&(pair.client, pair.listen))
    }

    /// Takes the table of a client out, or an empty one if it has none.
    pub fn take_out(&mut self, pair: Pair) -> LaneTable
        requires own { AreOwn self.old }
        ensures client { (standing result).client ≡ pair.client }
        ensures listen { (standing result).listen ≡ pair.listen }
        ensures allocation { (standing result).allocation ≡ allocation_of self.old pair }
        ensures rest { (c : Client) → table_of self.new c ≡ put same_client (table_of self.old) pair None c }
    {
        let entry = self.remove(pair);
        or_empty(entry, pair)
    }

    /// Sets the table of a client.
    pub fn put_in(&mut self, pair: Pair, table: LaneTable) -> Result<(), AllocError>
        ensures { OnOk result ((c : Client) → table_of self.new c ≡ put same_client (table_of self.old) pair (Some table) c) }
    {
        self.tables.insert((pair.client, pair.listen), table)?;
        Ok(())
    }

    /// Removes the permissions and channel bindings of a client that are past the grace.
    pub fn purge(&mut self, pair: Pair, moment: u64, grace: u64)
        ensures own { AreTablesPurged moment grace (table_of self.old pair) (table_of self.new pair) }
        ensures rest { (c : Client) → c ≢ pair → table_of self.new c ≡ table_of self.old c }
    {
        if let Some(table) = self.tables.get_mut(&(pair.client, pair.listen)) {
            table.purge(moment, grace);
        }
    }

    /// Drops the table of a client.
    pub fn drop_table(&mut self, pair: Pair)
        ensures { (c : Client) → table_of self.new c ≡ put same_client (table_of self.old) pair None c }
    {
        self.remove(pair);
    }

    /// Whether a client has an allocation, whether or not it has expired.
    pub fn has_allocation(&self, pair: Pair) -> bool
        ensures { result ≡ is_some (allocation_of self.now pair) }
    {
        match self.get(pair) {
            Some(table) => table.allocation().is_some(),
            None => false,
        }
    }

    /// The clients that have an allocation, by client and listen address.
    pub fn to_vec(&self, alloc: Global) -> Result<Vec<Carried>, AllocError>
        ensures { IfOk result (λ all. (c : Client) → carried.allocation_in all.items c ≡ allocation_of self.now c) }
    {
        let mut all = Vec::new(alloc);
        for (key, table) in self.tables.iter() {
            let pair = Pair {
                client: key.0,
                listen: key.1,
            };
            if let Some(client) = client_of(alloc, pair, table)? {
                all.push(client)?;
            }
        }
        Ok(all)
    }
}
