//! The possible causes of data that leaves.

use super::Lanes;
use crate::causes::Cause;
use crate::interfaces::Data;
use crate::judge::Judge;
use audit_content::parse_to_client;
use audit_model::Sighting;
use audit_seen::LaneNumber;

/// A possible cause of a departure, and its lane.
#[derive(Clone, Copy)]
pub struct Origin {
    lane: LaneNumber,
    cause: Cause,
}

impl Origin {
    pub fn lane(&self) -> LaneNumber {
        self.lane
    }

    pub fn cause(&self) -> &Cause {
        &self.cause
    }
}

/// All possible causes of a departure: in the lane that has the relayed address now, and in the one
/// that had it before, each in its current state and in that before its last deletion.
#[derive(Clone, Copy)]
pub struct Origins {
    lane: LaneNumber,
    list: [Option<Origin>; 6],
}

impl Origins {
    /// The most likely lane.
    pub fn lane(&self) -> LaneNumber {
        self.lane
    }

    /// The possible causes, the most likely first.
    pub fn as_slice(&self) -> &[Option<Origin>] {
        self.list.as_slice()
    }
}

impl Lanes {
    /// The possible causes of data that leaves; none if nobody has or had its relayed address.
    pub fn origins_of(&self, judge: &Judge<'_>, leaves: &Sighting, data: &Data) -> Option<Origins> {
        let digest = data.digest();
        if judge.policy().listens(leaves.from) {
            return Some(self.origins_by_peer(data.lane()?, leaves, digest));
        }
        let holders = *self.holders.get(&leaves.from)?;
        let [send, channel, deleted] = self.origins_by_client(holders.last(), leaves, digest);
        let [send_previous, channel_previous, deleted_previous] = match holders.previous() {
            Some(lane) => self.origins_by_client(lane, leaves, digest),
            None => [None; 3],
        };
        Some(Origins {
            lane: holders.last(),
            list: [
                send,
                channel,
                deleted,
                send_previous,
                channel_previous,
                deleted_previous,
            ],
        })
    }

    /// The possible causes, in one lane, of data that leaves to a peer.
    pub fn origins_in_lane(&self, lane: LaneNumber, leaves: &Sighting, digest: u64) -> Origins {
        let [send, channel, deleted] = self.origins_by_client(lane, leaves, digest);
        Origins {
            lane,
            list: [send, channel, deleted, None, None, None],
        }
    }

    /// The causes, in one lane, of data that leaves to a peer.
    fn origins_by_client(
        &self,
        lane: LaneNumber,
        leaves: &Sighting,
        digest: u64,
    ) -> [Option<Origin>; 3] {
        let peer = leaves.to;
        let Some(client) = self.get(lane) else {
            return [None; 3];
        };
        let number = client.number_of(peer);
        let deleted = client.number_before(peer, number);
        let by_channel = |number: u16| Origin {
            lane,
            cause: Cause::Channel {
                lane,
                number,
                digest,
            },
        };
        let by_send = Origin {
            lane,
            cause: Cause::Send { lane, peer, digest },
        };
        [
            if client.sends() { Some(by_send) } else { None },
            number.map(by_channel),
            deleted.map(by_channel),
        ]
    }

    /// The causes of data that a client receives.
    fn origins_by_peer(&self, lane: LaneNumber, leaves: &Sighting, digest: u64) -> Origins {
        let mut list = [None; 6];
        if let Some(client) = self.get(lane) {
            if let Some(given) = parse_to_client(leaves.payload.as_slice()) {
                let current = client.cause_of(&given, digest);
                let before = client.cause_before(&given, digest, current);
                list[0] = current.map(|cause| Origin { lane, cause });
                list[1] = before.map(|cause| Origin { lane, cause });
            }
        }
        Origins { lane, list }
    }
}
