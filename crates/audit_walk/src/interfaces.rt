//! The interfaces: how far each was placed, which comes next, and which wait.

mod deletions;
mod rows;
mod waiting;

pub use self::deletions::DATA_WAITING;
use self::rows::Row;
pub use self::rows::{Data, Role, WAITS, Wait};
use crate::heads::Heads;
use crate::numbers::ArrivalNumber;
use audit_cuts::Interface;
use audit_model::SightId;
use std::alloc::{AllocError, Global};
use std::collections::BTreeMap;

/// The interfaces, by number.
#[derive(Drop)]
pub struct Interfaces {
    rows: Vec<Row>,
    /// The queued interfaces, by the moments at which they are queued.
    heads: Heads,
    /// The interfaces whose next departure waits for an arrival, by that arrival.
    waiting: BTreeMap<ArrivalNumber, u32>,
    /// The interfaces whose next departure waits for the next sighting of any interface.
    expecting: Vec<u32>,
    /// The interfaces whose next departure waits for data, at most `DATA_WAITING`.
    for_data: Vec<u32>,
    alloc: Global,
}

impl Interfaces {
    pub fn new(alloc: Global) -> Interfaces {
        Interfaces {
            rows: Vec::new(alloc),
            heads: Heads::new(alloc),
            waiting: BTreeMap::new(alloc),
            expecting: Vec::new(alloc),
            for_data: Vec::new(alloc),
            alloc,
        }
    }

    /// The interfaces of which sightings are placed before a cut.
    pub fn resume(alloc: Global, interfaces: &[Interface]) -> Result<Interfaces, AllocError> {
        let mut resumed = Interfaces::new(alloc);
        for interface in interfaces {
            resumed.rows.push(Row::resume(alloc, interface.placed))?;
        }
        Ok(resumed)
    }

    /// Adds an interface, unless it is there.
    pub fn add(&mut self, iface: u32) -> Result<(), AllocError> {
        if self.rows.len() <= iface as usize {
            self.rows.push(Row::new(self.alloc))?;
        }
        Ok(())
    }

    /// How many sightings of an interface were noted.
    pub fn noted(&self, iface: u32) -> u32 {
        match self.rows.get(iface as usize) {
            Some(row) => row.noted(),
            None => 0,
        }
    }

    /// Notes the role of the next sighting of an interface.
    pub fn note(&mut self, iface: u32, role: Role) -> Result<(), AllocError> {
        match self.rows.get_mut(iface as usize) {
            Some(row) => row.note(role),
            None => Ok(()),
        }
    }

    /// Begins to place the next sighting of an interface, and returns its role.
    pub fn start_next(&mut self, iface: u32) -> Option<(SightId, Role)> {
        self.end_data_wait(iface);
        let row = self.rows.get_mut(iface as usize)?;
        row.start();
        row.next(iface)
    }

    /// Goes on after the next sighting of an interface.
    pub fn advance(&mut self, iface: u32) {
        if let Some(row) = self.rows.get_mut(iface as usize) {
            row.advance();
        }
    }

    /// Counts an act that is tried for the next sighting of an interface, whose datagrams have
    /// `bytes` bytes. Returns whether it may be tried.
    pub fn count_try(&mut self, iface: u32, is_last_moment: bool, bytes: usize) -> bool {
        match self.rows.get_mut(iface as usize) {
            Some(row) => row.count_try(is_last_moment, bytes),
            None => false,
        }
    }

    /// Whether each sighting that was noted has a key.
    pub fn are_placed(&self) -> bool {
        self.rows.iter().all(|row| row.is_placed())
    }
}
