//! The records of each client.

use audit_model::Pair;
use prep_causes::MaybeNumber;
use prep_records::Kept;
use std::alloc::{AllocError, Global};

/// The numbers of the records of each client, client by client, in the order of time.
#[derive(Drop)]
pub(crate) struct Members {
    records: Vec<u32>,
    /// Where each client's records begin, by its number.
    starts: Vec<u32>,
}

impl Members {
    /// No client. It takes no memory.
    pub(crate) fn new(alloc: Global) -> Self {
        Members {
            records: Vec::new(alloc),
            starts: Vec::new(alloc),
        }
    }

    /// The records of each client, except the records that a line excludes. The cost is linear.
    pub(crate) fn of_clients(
        alloc: Global,
        records: &[Kept],
        why: &[MaybeNumber],
        clients: &[Pair],
    ) -> Result<Self, AllocError> {
        let mut starts = vec![in alloc; 0u32; clients.len()]?;
        for (kept, line) in records.iter().zip(why.iter()) {
            if let (Some(client), None) = (kept.client.get(), line.get()) {
                if let Some(count) = starts.get_mut(client as usize) {
                    *count = count.saturating_add(1);
                }
            }
        }
        let total = begin_each(&mut starts);
        let mut next = starts.clone()?;
        let mut all = vec![in alloc; 0u32; total as usize]?;
        for (at, (kept, line)) in records.iter().zip(why.iter()).enumerate() {
            if let (Some(client), None) = (kept.client.get(), line.get()) {
                if let Some(place) = next.get_mut(client as usize) {
                    if let Some(member) = all.get_mut(*place as usize) {
                        *member = u32::try_from(at).unwrap_or(u32::MAX);
                    }
                    *place = place.saturating_add(1);
                }
            }
        }
        Ok(Members {
            records: all,
            starts,
        })
    }

    /// The records of a client.
    pub(crate) fn of(&self, client: u32) -> &[u32] {
        let client = client as usize;
        let Some(from) = self.starts.get(client).copied() else {
            return &[];
        };
        let to = match self.starts.get(client.wrapping_add(1)) {
            Some(to) => *to as usize,
            None => self.records.len(),
        };
        self.records.get(from as usize..to).unwrap_or(&[])
    }
}

/// Turns the counts into the starts, and returns the sum.
fn begin_each(counts: &mut Vec<u32>) -> u32 {
    let mut total = 0u32;
    for place in 0..counts.len() {
        if let Some(count) = counts.get_mut(place) {
            let behind = total.saturating_add(*count);
            *count = total;
            total = behind;
        }
    }
    total
}
