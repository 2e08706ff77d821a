//! The datagrams that arrive.

use crate::causes::Cause;
use crate::numbers::{AnswerNumber, ArrivalNumber};
use crate::queues::Queues;
use audit_model::{Key, SightId};
use audit_seen::LaneNumber;
use std::alloc::{AllocError, Global};

/// A datagram that arrives.
#[derive(Clone, Copy, Debug)]
pub struct Arrival {
    sight: SightId,
    /// Its key, once it is placed.
    key: Option<Key>,
    /// The client's lane; none for a peer's datagram.
    lane: Option<LaneNumber>,
    /// For a request, the captured response to it.
    answer: Option<AnswerNumber>,
    is_acted: bool,
    /// Its event is in a lane, or it is dropped.
    is_given: bool,
}

impl Arrival {
    pub fn sight(&self) -> SightId {
        self.sight
    }

    /// Its key, once it is placed.
    pub fn key(&self) -> Option<Key> {
        self.key
    }

    /// The client's lane; none for a peer's datagram.
    pub fn lane(&self) -> Option<LaneNumber> {
        self.lane
    }

    /// For a request, the captured response to it.
    pub fn answer(&self) -> Option<AnswerNumber> {
        self.answer
    }

    /// Its key, unless it was acted on.
    pub fn waiting_since(&self) -> Option<Key> {
        if self.is_acted {
            return None;
        }
        self.key
    }

    /// Whether nothing more can be sent for it.
    fn is_done(&self, earliest: u64) -> bool {
        match self.key {
            Some(key) => self.is_acted || key.moment < earliest,
            None => false,
        }
    }
}

/// All arrivals, by number and by cause.
#[derive(Drop)]
pub struct Arrivals {
    list: Vec<Arrival>,
    queues: Queues,
}

impl Arrivals {
    pub fn new(alloc: Global) -> Arrivals {
        Arrivals {
            list: Vec::new(alloc),
            queues: Queues::new(alloc),
        }
    }

    /// Adds an arrival whose cause has this digest, and returns its number.
    pub fn add(
        &mut self,
        sight: SightId,
        lane: Option<LaneNumber>,
        digest: Option<u64>,
    ) -> Result<ArrivalNumber, AllocError> {
        self.list.push(Arrival {
            sight,
            key: None,
            lane,
            answer: None,
            is_acted: false,
            is_given: false,
        })?;
        Ok(ArrivalNumber::new(self.queues.add(digest)?))
    }

    pub fn get(&self, number: ArrivalNumber) -> Option<&Arrival> {
        self.list.get(number.index())
    }

    fn get_mut(&mut self, number: ArrivalNumber) -> Option<&mut Arrival> {
        self.list.get_mut(number.index())
    }

    /// Sets the key of an arrival. The server may act on it until `until`.
    pub fn place(&mut self, number: ArrivalNumber, key: Key, until: u64) {
        self.queues.wait_until(number.value(), until);
        if let Some(arrival) = self.get_mut(number) {
            arrival.key = Some(key);
        }
    }

    /// Notes the response to a request.
    pub fn note_answer(&mut self, number: ArrivalNumber, answer: AnswerNumber) {
        if let Some(arrival) = self.get_mut(number) {
            arrival.answer = Some(answer);
        }
    }

    /// Marks an arrival as acted on, so that nothing more is sent for it, and returns its sighting.
    pub fn act(&mut self, number: ArrivalNumber) -> Option<SightId> {
        self.queues.wait_until(number.value(), 0);
        let arrival = self.get_mut(number)?;
        arrival.is_acted = true;
        Some(arrival.sight)
    }

    /// Marks the event of an arrival that has a key as emitted. Returns the key, unless the event
    /// was emitted before.
    pub fn emit(&mut self, number: ArrivalNumber) -> Option<Key> {
        let arrival = self.get_mut(number)?;
        let key = arrival.key?;
        if arrival.is_given {
            return None;
        }
        arrival.is_given = true;
        Some(key)
    }

    /// Takes out the first arrivals of a cause while they were acted on or came before `earliest`,
    /// and returns the first of the others.
    pub fn skip_to_first(&mut self, cause: &Cause, earliest: u64) -> Option<ArrivalNumber> {
        let queue = self.queues.queue_of(cause.digest())?;
        for _ in 0..self.list.len() {
            let first = ArrivalNumber::new(self.queues.first(queue)?);
            match self.get(first) {
                Some(arrival) if arrival.is_done(earliest) => self.queues.skip(queue),
                _ => return Some(first),
            }
        }
        None
    }

    /// The last arrival of a cause that was acted on, unless it came too long ago.
    pub fn previous(
        &mut self,
        cause: &Cause,
        earliest: u64,
    ) -> Result<Option<ArrivalNumber>, AllocError> {
        let previous = self.queues.previous(cause.digest())?;
        Ok(
            previous
                .map(|previous| ArrivalNumber::new(previous))
                .filter(|previous| self.came_since(*previous, earliest)),
        )
    }

    /// Whether an arrival has a key at a moment or after it.
    fn came_since(&self, number: ArrivalNumber, earliest: u64) -> bool {
        match self.get(number).and_then(|arrival| arrival.key) {
            Some(key) => key.moment >= earliest,
            None => false,
        }
    }

    /// The last arrival of a cause, of all that were added.
    pub fn last(&self, cause: &Cause) -> Option<ArrivalNumber> {
        let queue = self.queues.queue_of(cause.digest())?;
        Some(ArrivalNumber::new(self.queues.last(queue)?))
    }

    /// Removes from time to time the queues of which no arrival can be acted on after a moment, so
    /// that the others are found sooner.
    pub fn tidy(&mut self, moment: u64) -> Result<(), AllocError> {
        self.queues.tidy(moment)
    }

    /// Forgets the arrivals that were acted on before the last call.
    pub fn renew(&mut self) {
        self.queues.renew();
    }

    /// The next arrival of the same cause.
    pub fn next(&self, number: ArrivalNumber) -> Option<ArrivalNumber> {
        Some(ArrivalNumber::new(self.queues.behind(number.value())?))
    }
}
