//! Reads sightings some time before they are placed, and classifies each of them alone.
//!
//! The arrival of a departure may be on another interface, and which response a request has is only
//! known from later departures. So the walk reads the sightings that come soon after a moment
//! before it places that moment's sightings. It reads no further, so that their payloads are still
//! in the cache.

use crate::heads::Heads;
use crate::judge::Judge;
use crate::kinds::{Kind, kind_of};
use audit_cuts::Interface;
use audit_model::Sighting;
use audit_sightings::Intake;
use std::alloc::{AllocError, Global};

/// How many sightings of an interface are read at once. Their payloads stay in the cache until they
/// are placed.
const AT_ONCE: usize = 1_024;

/// The kinds of the next sightings, of all whose windows begin up to a moment.
#[derive(Drop)]
pub struct Stretch {
    until: u64,
    /// Interfaces, with the kinds of their next sightings.
    rows: Vec<(u32, Vec<Kind>)>,
}

impl Stretch {
    /// The last moment at which a window of its sightings begins.
    pub(crate) fn until(&self) -> u64 {
        self.until
    }

    /// Interfaces, with the kinds of their next sightings.
    pub(crate) fn rows(&self) -> &[(u32, Vec<Kind>)] {
        self.rows.as_slice()
    }

    /// Returns the interfaces, with the kinds of their next sightings.
    pub(crate) fn into_rows(self) -> Vec<(u32, Vec<Kind>)> {
        self.rows
    }
}

/// How many sightings were read.
#[derive(Drop)]
pub struct Ahead {
    /// Interfaces by their next sighting that wasn't read.
    heads: Heads,
    /// How many sightings of each interface were read.
    read: Vec<usize>,
    alloc: Global,
}

impl Ahead {
    /// Nothing was read yet. Allocates no memory.
    pub fn new(alloc: Global) -> Ahead {
        Ahead {
            heads: Heads::new(alloc),
            read: Vec::new(alloc),
            alloc,
        }
    }

    /// The placed sightings of each interface were read.
    pub fn resume(alloc: Global, interfaces: &[Interface]) -> Result<Ahead, AllocError> {
        let mut ahead = Ahead::new(alloc);
        for interface in interfaces {
            ahead.read.push(interface.placed as usize)?;
        }
        Ok(ahead)
    }

    /// Begins to read the sightings that were added to the intake.
    pub fn begin(&mut self, judge: &Judge<'_>) -> Result<(), AllocError> {
        for iface in 0..judge.intake().interfaces() {
            if self.read.len() <= iface as usize {
                self.read.push(0)?;
            }
            if let Some(first) = self.unread(judge.intake(), iface).first() {
                self.heads.push(judge.first_moment(first), iface)?;
            }
        }
        Ok(())
    }

    /// Reads the next sightings: up to `AT_ONCE` of the interface that has the first of them, and
    /// of all interfaces those that begin before the last of these, or soon after the first.
    /// Returns `None` if all were read.
    pub fn next(&mut self, judge: &Judge<'_>) -> Result<Option<Stretch>, AllocError> {
        let Some(until) = self.next_until(judge) else {
            return Ok(None);
        };
        let mut rows = Vec::new(self.alloc);
        for _ in 0..judge.intake().interfaces() {
            let Some((_, iface)) = self.heads.pop(until) else {
                break;
            };
            rows.push((iface, self.read_row(judge, iface, until)?))?;
        }
        Ok(Some(Stretch { until, rows }))
    }

    /// The sightings of an interface that weren't read yet.
    fn unread<'a>(&self, intake: &'a Intake, iface: u32) -> &'a [Sighting] {
        let read = self.read.get(iface as usize).copied().unwrap_or(0);
        intake.interface(iface).get(read..).unwrap_or(&[])
    }

    /// The moment up to which the next sightings are read.
    fn next_until(&self, judge: &Judge<'_>) -> Option<u64> {
        let (first, iface) = self.heads.first()?;
        let unread = self.unread(judge.intake(), iface);
        let some = unread.get(..AT_ONCE).unwrap_or(unread);
        let last = judge.first_moment(some.last()?);
        Some(last.max(first.saturating_add(judge.look_ahead())))
    }

    /// Reads the sightings of an interface that begin up to a moment, and queues the interface by
    /// the next sighting.
    fn read_row(
        &mut self,
        judge: &Judge<'_>,
        iface: u32,
        until: u64,
    ) -> Result<Vec<Kind>, AllocError> {
        let unread = self.unread(judge.intake(), iface);
        let count = match unread
            .iter()
            .position(|sighting| judge.first_moment(sighting) > until)
        {
            Some(count) => count,
            None => unread.len(),
        };
        if let Some(behind) = unread.get(count) {
            self.heads.push(judge.first_moment(behind), iface)?;
        }
        if let Some(read) = self.read.get_mut(iface as usize) {
            *read = read.saturating_add(count);
        }
        all_kinds(self.alloc, judge, unread.get(..count).unwrap_or(&[]))
    }
}

/// Classifies each sighting.
fn all_kinds(
    alloc: Global,
    judge: &Judge<'_>,
    sightings: &[Sighting],
) -> Result<Vec<Kind>, AllocError> {
    let mut kinds = Vec::with_capacity(alloc, sightings.len())?;
    for sighting in sightings {
        kinds.push(kind_of(judge, sighting))?;
    }
    Ok(kinds)
}
