//! A checkpoint while its lines are read.

ghost use Rattle.std.specs.Prelude.{◌≡◌, ◌==◌, length, true, Ok, MatchResult, OnOk, IfErr};
ghost use Rattle.audit_text.specs.Reading.{UnlessMemory};
ghost use Rattle.watch_checkpoint.specs.Content.{content_of, header_content};
ghost use Rattle.watch_checkpoint.specs.Fault.{is_memory};
ghost use Rattle.watch_checkpoint.specs.Adding.{Progress, Says, begun, after, clients_of, content_at, has_no_times, has_no_clients, placed_at, progress_of, with_interface, with_client, with_permission, with_channel, with_waits, with_owed, with_entry};

use crate::checkpoint::{Checkpoint, Header};
use crate::client_set::ClientSet;
use crate::entry::{Entry, Holder};
use crate::fault::LineKind;
use crate::line_reading::read_entry;
use audit_cuts::{Came, Carried, Client, Interface};
use audit_expiry::Lease;
use audit_rules::Channel;
use audit_text::Lines;
use std::alloc::{AllocFailed, Global};

/// The content of the lines so far.
#[derive(Drop)]
pub struct Draft {
    pub(crate) alloc: Global,
    /// The grace of the policy, in nanoseconds.
    pub(crate) grace: u64,
    pub(crate) header: Header,
    pub(crate) moment: u64,
    pub(crate) interfaces: Vec<Interface>,
    /// All clients except the last one.
    pub(crate) clients: Vec<Client>,
    /// The client that permissions and channels follow.
    pub(crate) last: Option<Client>,
    pub(crate) waiting: Vec<Came>,
    pub(crate) owed: Vec<Came>,
    pub(crate) known: ClientSet,
}

/// How many sightings of the interface are placed.
fn placed_at(interfaces: &[Interface], iface: u32) -> u32
    ensures { result ≡ placed_at interfaces.now iface }
{
    match interfaces.get(iface as usize) {
        Some(interface) => interface.placed,
        None => 0,
    }
}

impl Draft {
    /// No line yet after the moment's. Allocates no memory.
    pub fn new(alloc: Global, grace: u64, header: Header, moment: u64) -> Draft
        ensures { Says result (begun grace (header_content header) moment) }
    {
        Draft {
            alloc,
            grace,
            header,
            moment,
            interfaces: Vec::new(alloc),
            clients: Vec::new(alloc),
            last: None,
            waiting: Vec::new(alloc),
            owed: Vec::new(alloc),
            known: ClientSet::new(alloc),
        }
    }

    fn has_no_times(&self) -> bool
        ensures { result ≡ has_no_times (progress_of self.now) }
    {
        self.waiting.is_empty() && self.owed.is_empty()
    }

    fn has_no_clients(&self) -> bool
        ensures { result ≡ has_no_clients (progress_of self.now) }
    {
        self.clients.is_empty() && self.last.is_none() && self.has_no_times()
    }

    fn add_interface(&mut self, number: u64, interface: Interface) -> Result<(), LineKind>
        ensures exact { MatchResult result (λ _. with_interface (progress_of self.old) number interface ≡ Ok (progress_of self.new))
            (λ kind. UnlessMemory is_memory kind (with_interface (progress_of self.old) number interface)) }
        ensures known { OnOk result (self.new.known ≡ self.old.known) }
    {
        if number != self.interfaces.len() as u64 || !self.has_no_clients() {
            return Err(LineKind::Order);
        }
        self.interfaces.push(interface)?;
        Ok(())
    }

    /// Adds the last client to those before it.
    fn end_client(&mut self) -> Result<(), LineKind>
        ensures ok { OnOk result (progress_of self.new ≡ record (progress_of self.old) { before = clients_of (progress_of self.old); last = None }) }
        ensures known { self.new.known ≡ self.old.known }
        ensures err { IfErr result (λ kind. is_memory kind ≡ true) }
    {
        if let Some(client) = self.last.take() {
            self.clients.push(client)?;
        }
        Ok(())
    }

    fn add_client(&mut self, holder: Holder) -> Result<(), LineKind>
        ensures { (before : Progress) → Says self.old before → MatchResult result
            (λ _. (with_client before holder ≡ Ok (progress_of self.new)) × Says self.new (progress_of self.new))
            (λ kind. UnlessMemory is_memory kind (with_client before holder)) }
    {
        if !self.has_no_times() {
            return Err(LineKind::Order);
        }
        self.known.claim(self.grace, self.moment, &holder)?;
        self.end_client()?;
        self.last = Some(Client {
            pair: holder.pair,
            relayed: holder.relayed,
            user: holder.user,
            id: holder.id,
            lease: holder.lease,
            permissions: Vec::new(self.alloc),
            channels: Vec::new(self.alloc),
        });
        Ok(())
    }

    fn add_permission(&mut self, ip: u32, lease: Lease) -> Result<(), LineKind>
        ensures exact { MatchResult result (λ _. with_permission (progress_of self.old) ip lease ≡ Ok (progress_of self.new))
            (λ kind. UnlessMemory is_memory kind (with_permission (progress_of self.old) ip lease)) }
        ensures known { OnOk result (self.new.known ≡ self.old.known) }
    {
        if !self.has_no_times() {
            return Err(LineKind::Order);
        }
        let Some(mut client) = self.last.take() else {
            return Err(LineKind::Order);
        };
        if !client.channels.is_empty() {
            return Err(LineKind::Order);
        }
        client.permissions.push((ip, lease))?;
        self.last = Some(client);
        Ok(())
    }

    fn add_channel(&mut self, number: u16, channel: Channel) -> Result<(), LineKind>
        ensures exact { MatchResult result (λ _. with_channel (progress_of self.old) number channel ≡ Ok (progress_of self.new))
            (λ kind. UnlessMemory is_memory kind (with_channel (progress_of self.old) number channel)) }
        ensures known { OnOk result (self.new.known ≡ self.old.known) }
    {
        if !self.has_no_times() {
            return Err(LineKind::Order);
        }
        let Some(mut client) = self.last.take() else {
            return Err(LineKind::Order);
        };
        client.channels.push((number, channel))?;
        self.last = Some(client);
        Ok(())
    }

    fn add_waits(&mut self, came: Came) -> Result<(), LineKind>
        ensures exact { MatchResult result (λ _. with_waits (progress_of self.old) came ≡ Ok (progress_of self.new))
            (λ kind. UnlessMemory is_memory kind (with_waits (progress_of self.old) came)) }
        ensures known { OnOk result (self.new.known ≡ self.old.known) }
    {
        if !self.owed.is_empty() {
            return Err(LineKind::Order);
        }
        if came.sight.index >= placed_at(&self.interfaces, came.sight.iface) {
            return Err(LineKind::Placement);
        }
        self.waiting.push(came)?;
        Ok(())
    }

    fn add_owed(&mut self, came: Came) -> Result<(), LineKind>
        ensures exact { MatchResult result (λ _. with_owed (progress_of self.old) came ≡ Ok (progress_of self.new))
            (λ kind. UnlessMemory is_memory kind (with_owed (progress_of self.old) came)) }
        ensures known { OnOk result (self.new.known ≡ self.old.known) }
    {
        if came.sight.index < placed_at(&self.interfaces, came.sight.iface) {
            return Err(LineKind::Placement);
        }
        self.owed.push(came)?;
        Ok(())
    }

    #[tactic(auto, unfolding(crate::specs::Adding::with_entry))]
    fn add_entry(&mut self, entry: Entry) -> Result<(), LineKind>
        ensures { (before : Progress) → Says self.old before → MatchResult result
            (λ _. (with_entry before entry ≡ Ok (progress_of self.new)) × Says self.new (progress_of self.new))
            (λ kind. UnlessMemory is_memory kind (with_entry before entry)) }
    {
        match entry {
            Entry::Interface(number, interface) => self.add_interface(number, interface),
            Entry::Client(holder) => self.add_client(holder),
            Entry::Permission(ip, lease) => self.add_permission(ip, lease),
            Entry::Channel(number, channel) => self.add_channel(number, channel),
            Entry::Waits(came) => self.add_waits(came),
            Entry::Owed(came) => self.add_owed(came),
        }
    }

    /// The checkpoint of the lines.
    pub fn checkpoint(mut self) -> Result<Checkpoint, LineKind>
        ensures { MatchResult result (λ checkpoint. content_of checkpoint ≡ content_at (progress_of self)) (λ kind. is_memory kind ≡ true) }
    {
        match self.end_client() {
            Ok(()) => {}
            Err(_) => return Err(LineKind::Memory),
        }
        Ok(Checkpoint {
            header: self.header,
            carried: Carried {
                moment: self.moment,
                clients: self.clients,
                waiting: self.waiting,
                owed: self.owed,
                interfaces: self.interfaces,
            },
        })
    }
}

impl Lines for Draft {
    ghost use Rattle.watch_checkpoint.specs.Adding.{Progress, Says, after};
    ghost use Rattle.watch_checkpoint.specs.Reading.{unended, overlong, lacks};

    type Kind = LineKind;

    ghost said = { Progress };

    ghost says = { Says };

    ghost after = { after };

    ghost unended = { unended };

    ghost overlong = { overlong };

    ghost lacks = { lacks };

    ghost is_memory = { is_memory };

    #[tactic(auto, unfolding(crate::specs::Adding::after))]
    fn take_line(&mut self, line: &[u8]) -> Result<(), LineKind> {
        let entry = read_entry(self.alloc, line)?;
        self.add_entry(entry)
    }

    fn unended(&self, _rest: &[u8]) -> LineKind {
        LineKind::Line
    }

    fn overlong(&self) -> LineKind {
        LineKind::Line
    }

    fn lacks(&self) -> Option<LineKind> {
        None
    }

    fn no_memory() -> LineKind {
        LineKind::Memory
    }
}
