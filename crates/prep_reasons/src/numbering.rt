//! Which records are after the stated moments, and to which client the others belong.

use crate::members::Members;
use crate::sheet::Sheet;
use audit_model::{Addr, Pair, Side};
use prep_causes::MaybeNumber;
use prep_cut::Reason;
use prep_records::Content;
use std::alloc::AllocError;
use std::collections::BTreeMap;

impl<'a> Sheet<'a> {
    /// Excludes the records after the stated moments.
    pub(crate) fn exclude_outside(&mut self) -> Result<(), AllocError> {
        let stated = self.stated;
        for at in 0..self.records.len() {
            let Some(record) = self.record(at) else {
                continue;
            };
            let late = match record.side {
                Side::Leaves => record.stamp,
                Side::Arrives => record.stamp.saturating_sub(self.slack),
            };
            if stated.is_late(late) {
                self.exclude(at, Reason::AfterUntil)?;
            }
        }
        Ok(())
    }

    /// Numbers the clients with their listen addresses.
    pub(crate) fn number_pairs(&mut self) -> Result<(), AllocError> {
        let mut numbers: BTreeMap<(Addr, Addr), u32> = BTreeMap::new(self.alloc);
        for at in 0..self.records.len() {
            let Some(pair) = self.pair_in(at) else {
                continue;
            };
            let key = (pair.client, pair.listen);
            let number = match numbers.get(&key) {
                Some(number) => *number,
                None => {
                    let number = u32::try_from(self.pairs.len()).unwrap_or(u32::MAX);
                    self.pairs.push(pair)?;
                    numbers.insert(key, number)?;
                    number
                }
            };
            if let Some(kept) = self.records.get_mut(at) {
                kept.client = MaybeNumber::some(number);
            }
        }
        self.members = Members::of_clients(self.alloc, &self.records, &self.why, &self.pairs)?;
        Ok(())
    }

    /// The client and the listen address of a record that has them.
    fn pair_in(&self, at: usize) -> Option<Pair> {
        let record = self.record(at)?;
        match record.content {
            Content::Inside | Content::Relayed => None,
            _ => Some(match record.side {
                Side::Arrives => Pair {
                    client: record.from,
                    listen: record.to,
                },
                Side::Leaves => Pair {
                    client: record.to,
                    listen: record.from,
                },
            }),
        }
    }
}
