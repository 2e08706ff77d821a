//! Departures on which a lane can't act by the rules, and the arrivals that are used for them.

use super::Lane;
use audit_model::Rule;
use audit_search_state::{Acted, PoolRef, Refused, Turn, relayed_of};
use audit_seen::{Content, SeenNumber, Slot};
use std::alloc::AllocError;

/// How many arrivals of a pool are looked at.
const LOOKED_AT: usize = 16;

/// An arrival that a departure may answer. An unused one is preferred, then one within the hold,
/// then the last one.
#[derive(Clone, Copy, Debug, PartialEq, Eq, PartialOrd, Ord)]
struct Likely {
    is_unused: bool,
    is_held: bool,
    rank: u32,
    arrival: SeenNumber,
}

impl Lane<'_> {
    /// The pools that a departure may answer: those of the present allocation, those of the lane's
    /// other allocations, or any.
    fn any_pools(&self, departure: SeenNumber) -> Result<Vec<PoolRef>, AllocError> {
        let now = relayed_of(self.state.table());
        self.input.any_pools(self.number, departure, now)
    }

    /// Acts on a departure by the arrival that it most likely answers, against the rules; returns
    /// which rule refuses it.
    pub fn act_likely(&mut self, departure: SeenNumber) -> Result<Refused, AllocError> {
        let mut best: Option<Likely> = None;
        for pool in self.any_pools(departure)? {
            best = best.max(self.likely(departure, pool));
        }
        let likely = match best {
            Some(likely) => Some(likely.arrival),
            None => self.last_sent(departure),
        };
        let Some(arrival) = likely else {
            return Ok(Refused::NoArrival);
        };
        let slot = Slot::before(self.input.rank(departure));
        let moment = self.input.at(departure);
        let is_used = self.state.is_used(arrival);
        let empty = self.empty_table();
        let mut table = self.state.take_table(empty);
        let refused = self.judge(&mut table, arrival, departure, slot, moment)?;
        self.state.put_table(table);
        self.act_by(departure, arrival, slot)?;
        if is_used {
            return Ok(Refused::Rule(Rule::ActedTwice));
        }
        Ok(refused.unwrap_or(Refused::NoArrival))
    }

    /// The arrival of a pool that a departure most likely answers: an unused one, within the hold,
    /// the last one.
    fn likely(&self, departure: SeenNumber, pool: PoolRef) -> Option<Likely> {
        let all = self.input.views().arrivals(self.number, pool);
        let rank = self.input.rank(departure);
        let moment = self.input.at(departure);
        let behind = all.partition_point(|one| one.rank() < rank);
        let mut best = None;
        for one in all.get(behind.saturating_sub(LOOKED_AT)..behind)? {
            let arrival = one.number();
            best = best.max(Some(Likely {
                is_unused: !self.state.is_used(arrival),
                is_held: self.input.held_until(arrival) >= moment,
                rank: one.rank(),
                arrival,
            }));
        }
        best
    }

    /// The last data of the client, for a departure from a relayed address.
    fn last_sent(&self, departure: SeenNumber) -> Option<SeenNumber> {
        if !matches!(self.input.content(departure), Some(Content::Relayed { .. })) {
            return None;
        }
        let all = self.input.views().sent(self.number);
        let rank = self.input.rank(departure);
        let moment = self.input.at(departure);
        let behind = all.partition_point(|one| one.rank() < rank);
        for one in all
            .get(behind.saturating_sub(LOOKED_AT)..behind)?
            .iter()
            .rev()
        {
            let arrival = one.number();
            if !self.state.is_used(arrival) && self.input.held_until(arrival) >= moment {
                return Some(arrival);
            }
        }
        None
    }

    fn act_by(
        &mut self,
        departure: SeenNumber,
        arrival: SeenNumber,
        slot: Slot,
    ) -> Result<(), AllocError> {
        let turn = Turn::now(self.state.take_turn());
        let acted = Acted::new(slot, turn, arrival);
        self.state.act(departure, acted)
    }

    /// Whether no order helps a departure that is refused: a response without a request, or one
    /// that doesn't answer its only request by the content of the two, whatever the server has.
    pub fn is_hopeless(&self, departure: SeenNumber, refused: Refused) -> bool {
        let Some(pool) = self.input.response_ref(departure) else {
            return false;
        };
        match self.input.views().arrivals(self.number, pool).len() {
            0 => true,
            1 => is_of_content(refused),
            _ => false,
        }
    }

    /// Acts on a departure after the lane's fault: by the rules if they allow it, else by any
    /// arrival.
    pub fn act_anyhow(&mut self, departure: SeenNumber) -> Result<(), AllocError> {
        let slot = Slot::before(self.input.rank(departure));
        let moment = self.input.at(departure);
        if self.act_now(departure, slot, moment)?.is_none() {
            return Ok(());
        }
        for pool in self.any_pools(departure)? {
            if let Some(arrival) = self.unused(departure, pool, slot)?.first().copied() {
                return self.act_by(departure, arrival, slot);
            }
        }
        Ok(())
    }
}

/// Whether a rule is about content alone, not about what the server has or had, in all responses.
fn is_of_content(refused: Refused) -> bool {
    matches!(
        refused,
        Refused::Rule(
            Rule::NotAuthentic
                | Rule::ChannelNumber
                | Rule::MappedAddress
                | Rule::ResponseIntegrity
                | Rule::Malformed
        )
    )
}
