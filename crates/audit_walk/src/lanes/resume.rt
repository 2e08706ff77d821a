//! The lanes of clients that were carried over a cut.

use super::Lanes;
use super::holding::Holding;
use crate::judge::Judge;
use audit_cuts::Client;
use std::alloc::{AllocError, Global};

impl Lanes {
    /// A lane for each client, with the allocations that were carried over a cut. It takes n log n
    /// time in these.
    pub fn resume(
        alloc: Global,
        judge: &Judge<'_>,
        clients: &[Client],
    ) -> Result<Lanes, AllocError> {
        let mut lanes = Lanes::new(alloc);
        lanes.add_all(judge.clients())?;
        let mut order = Vec::with_capacity(alloc, clients.len())?;
        for client in clients {
            order.push(client)?;
        }
        // Of the clients with one relayed address the last one has it.
        order.sort_unstable_by_key(|client| client.lease.until);
        for client in order {
            lanes.resume_client(judge, client)?;
        }
        Ok(lanes)
    }

    /// Sets the allocation of a client, if it has a lane.
    fn resume_client(&mut self, judge: &Judge<'_>, client: &Client) -> Result<(), AllocError> {
        let pair = client.pair;
        let Some(number) = judge.lane_of(pair.client, pair.listen) else {
            return Ok(());
        };
        let holding = Holding::resume(self.alloc, number, client, judge.policy().grace)?;
        if let Some(lane) = self.get_mut(number) {
            lane.set_holding(holding);
        }
        self.note_holder(number, client.relayed)
    }
}
