//! The acts that granted and renewed a client's leases. The ends of leases are those of the
//! replay's table; only their acts are here.

use audit_model::{Addr, At, SightId};
use audit_rules::{Allocation, LaneTable};
use audit_stun::numbers::attribute::CHANNEL_NUMBER;
use audit_stun::{Class, Message, address, message};
use std::alloc::{AllocError, Global};
use std::collections::BTreeMap;

/// A request and its response, which changed the client's leases.
#[derive(Clone, Copy, Debug)]
pub struct GrantAct {
    pub arrives: SightId,
    pub leaves: SightId,
    pub method: u16,
}

/// The acts of a lease.
#[derive(Clone, Copy)]
pub(crate) struct Held {
    /// Its end after the last of them, in nanoseconds since 1970.
    until: u64,
    pub(crate) made: GrantAct,
    /// The last act that changed its end.
    pub(crate) last: GrantAct,
    /// The number of acts after the first one.
    pub(crate) renewals: u32,
}

/// An allocation that was removed, or replaced by another after its end.
#[derive(Clone, Copy, Debug)]
pub struct Ended {
    pub relayed: Addr,
    /// Its end, in nanoseconds since 1970.
    pub until: u64,
    pub made: GrantAct,
    pub ending: GrantAct,
}

/// The present allocation.
#[derive(Clone, Copy)]
struct Present {
    born: At,
    relayed: Addr,
    held: Held,
}

/// The leases that the acts of a lane so far granted and renewed.
#[derive(Drop)]
pub(crate) struct History {
    present: Option<Present>,
    permissions: BTreeMap<u32, Held>,
    channels: BTreeMap<u16, Held>,
    ended: Vec<Ended>,
    alloc: Global,
}

/// The acts of a lease that has this end after an act.
fn held_after(before: Option<Held>, until: u64, act: GrantAct) -> Held {
    match before {
        None => Held {
            until,
            made: act,
            last: act,
            renewals: 0,
        },
        Some(held) => {
            if held.until == until {
                return held;
            }
            Held {
                until,
                made: held.made,
                last: act,
                renewals: held.renewals.saturating_add(1),
            }
        }
    }
}

impl History {
    /// No acts. It takes no memory.
    pub(crate) fn new(alloc: Global) -> History {
        History {
            present: None,
            permissions: BTreeMap::new(alloc),
            channels: BTreeMap::new(alloc),
            ended: Vec::new(alloc),
            alloc,
        }
    }

    /// The acts of the present allocation.
    pub(crate) fn allocation(&self) -> Option<Held> {
        Some(self.present?.held)
    }

    /// The acts of the permission for an IP.
    pub(crate) fn permission(&self, ip: u32) -> Option<Held> {
        self.permissions.get(&ip).copied()
    }

    /// The acts of a channel.
    pub(crate) fn channel(&self, number: u16) -> Option<Held> {
        self.channels.get(&number).copied()
    }

    /// The numbers of the channels of this allocation, in rising order.
    pub(crate) fn channels(&self, alloc: Global) -> Result<Vec<u16>, AllocError> {
        let mut numbers = Vec::new(alloc);
        for (number, _) in &self.channels {
            numbers.push(*number)?;
        }
        Ok(numbers)
    }

    /// The IPs of the permissions of this allocation, in rising order.
    pub(crate) fn permissions(&self, alloc: Global) -> Result<Vec<u32>, AllocError> {
        let mut ips = Vec::new(alloc);
        for (ip, _) in &self.permissions {
            ips.push(*ip)?;
        }
        Ok(ips)
    }

    /// The allocations that have ended, in order.
    pub(crate) fn ended(&self) -> &[Ended] {
        self.ended.as_slice()
    }

    /// Records the table after an act with this request.
    pub(crate) fn note(
        &mut self,
        table: &LaneTable,
        request: &[u8],
        arrives: SightId,
        leaves: SightId,
    ) -> Result<(), AllocError> {
        let Some(asked) = message(request) else {
            return Ok(());
        };
        if asked.class() != Class::Request {
            return Ok(());
        }
        let act = GrantAct {
            arrives,
            leaves,
            method: asked.method(),
        };
        match table.allocation() {
            None => self.end(act),
            Some(allocation) => {
                self.note_allocation(allocation, act)?;
                self.note_peers(allocation, &asked, act)?;
                self.note_channel(allocation, &asked, act)
            }
        }
    }

    /// Records that the allocation has ended.
    fn end(&mut self, act: GrantAct) -> Result<(), AllocError> {
        if let Some(present) = self.present {
            self.ended.push(Ended {
                relayed: present.relayed,
                until: present.held.until,
                made: present.held.made,
                ending: act,
            })?;
        }
        self.present = None;
        self.permissions = BTreeMap::new(self.alloc);
        self.channels = BTreeMap::new(self.alloc);
        Ok(())
    }

    /// Records the allocation after an act.
    fn note_allocation(
        &mut self,
        allocation: &Allocation,
        act: GrantAct,
    ) -> Result<(), AllocError> {
        let before = match self.present {
            Some(present) => {
                if present.born == allocation.born {
                    Some(present.held)
                } else {
                    None
                }
            }
            None => None,
        };
        if before.is_none() {
            self.end(act)?;
        }
        self.present = Some(Present {
            born: allocation.born,
            relayed: allocation.relayed,
            held: held_after(before, allocation.lease.until, act),
        });
        Ok(())
    }

    /// Records the permissions of the peers that a request names.
    fn note_peers(
        &mut self,
        allocation: &Allocation,
        asked: &Message<'_>,
        act: GrantAct,
    ) -> Result<(), AllocError> {
        for value in asked.peers() {
            if let Some(peer) = address(value) {
                self.note_permission(allocation, peer.ip, act)?;
            }
        }
        Ok(())
    }

    fn note_permission(
        &mut self,
        allocation: &Allocation,
        ip: u32,
        act: GrantAct,
    ) -> Result<(), AllocError> {
        if let Some(lease) = allocation.permissions.get(ip) {
            let held = held_after(self.permission(ip), lease.until, act);
            self.permissions.insert(ip, held)?;
        }
        Ok(())
    }

    /// Records the channel that a request names.
    fn note_channel(
        &mut self,
        allocation: &Allocation,
        asked: &Message<'_>,
        act: GrantAct,
    ) -> Result<(), AllocError> {
        let Some([high, low, ..]) = asked.first(CHANNEL_NUMBER) else {
            return Ok(());
        };
        let number = u16::from_be_bytes([*high, *low]);
        if let Some(channel) = allocation.channels.get(number) {
            let held = held_after(self.channel(number), channel.lease.until, act);
            self.channels.insert(number, held)?;
        }
        Ok(())
    }
}
