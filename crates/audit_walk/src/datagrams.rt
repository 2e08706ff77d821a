//! The arrivals and the responses that were noted, and which response is to which request.

mod answers;
mod arrivals;
mod pairing;

use self::answers::Answers;
pub use self::answers::{Answer, Transaction};
pub use self::arrivals::Arrival;
use self::arrivals::Arrivals;
pub use self::pairing::CANDIDATES;
use crate::causes::Cause;
use crate::content::Content;
use crate::numbers::{AnswerNumber, ArrivalNumber};
use audit_model::{Addr, Key, SightId};
use audit_seen::LaneNumber;
use std::alloc::{AllocError, Global};
use std::collections::VecDeque;

/// All arrivals and responses that were noted.
#[derive(Drop)]
pub struct Datagrams {
    arrivals: Arrivals,
    answers: Answers,
    /// Arrivals that have a key, and whose events may not be emitted yet, in the order of their
    /// keys.
    undecided: VecDeque<ArrivalNumber>,
    /// The last data that a client sent, in any lane.
    last_sent: Option<ArrivalNumber>,
    /// The moment of the last `renew`.
    renewed: u64,
}

impl Datagrams {
    pub fn new(alloc: Global) -> Datagrams {
        Datagrams {
            arrivals: Arrivals::new(alloc),
            answers: Answers::new(alloc),
            undecided: VecDeque::new(alloc),
            last_sent: None,
            renewed: 0,
        }
    }

    pub fn arrival(&self, number: ArrivalNumber) -> Option<&Arrival> {
        self.arrivals.get(number)
    }

    pub fn answer(&self, number: AnswerNumber) -> Option<&Answer> {
        self.answers.get(number)
    }

    /// Adds an arrival whose cause has this digest, and returns its number.
    pub fn add_arrival(
        &mut self,
        sight: SightId,
        lane: Option<LaneNumber>,
        digest: Option<u64>,
    ) -> Result<ArrivalNumber, AllocError> {
        self.arrivals.add(sight, lane, digest)
    }

    /// Adds a response that can leave until `until`, links it with its request if that is known,
    /// and returns its number.
    pub fn add_answer(
        &mut self,
        answer: Answer,
        transaction: &Transaction,
        until: u64,
    ) -> Result<AnswerNumber, AllocError> {
        let number = self.answers.add(answer, transaction, until)?;
        if let Some(request) = answer.request() {
            self.arrivals.note_answer(request, number);
        }
        Ok(number)
    }

    /// Notes the earliest moment at which the response leaves that deletes the allocation of
    /// another response.
    pub fn note_deletion(&mut self, allocation: AnswerNumber, from: u64) {
        self.answers.note_deletion(allocation, from);
    }

    /// Sets the key of an arrival, and leaves its event undecided. The server may act on it until
    /// `until`.
    pub fn place(&mut self, number: ArrivalNumber, key: Key, until: u64) -> Result<(), AllocError> {
        self.arrivals.place(number, key, until);
        self.undecided.push_back(number)?;
        Ok(())
    }

    /// Notes the last data of a client.
    pub fn note_sent(&mut self, number: ArrivalNumber) {
        self.last_sent = Some(number);
    }

    /// The lane of the last data of a client.
    pub fn last_sender(&self) -> Option<LaneNumber> {
        self.arrivals.get(self.last_sent?)?.lane()
    }

    /// Marks an arrival as acted on, and returns its sighting.
    pub fn act(&mut self, number: ArrivalNumber) -> Option<SightId> {
        self.arrivals.act(number)
    }

    /// Marks the event of an arrival that has a key as emitted. Returns the key, unless the event
    /// was emitted before.
    pub fn emit(&mut self, number: ArrivalNumber) -> Option<Key> {
        self.arrivals.emit(number)
    }

    /// Marks a response as acted on, and returns it.
    pub fn act_answer(&mut self, number: AnswerNumber) -> Option<Answer> {
        self.answers.act(number)
    }

    /// The number of arrivals that may be undecided.
    pub fn undecided(&self) -> usize {
        self.undecided.len()
    }

    /// Takes out the first arrival that may be undecided, unless its key is past the horizon.
    pub fn take_undecided(&mut self, horizon: u64) -> Option<ArrivalNumber> {
        let number = *self.undecided.front()?;
        if self.is_past(number, horizon) {
            return None;
        }
        self.undecided.pop_front()
    }

    /// Whether the key of an arrival is past the horizon.
    fn is_past(&self, number: ArrivalNumber, horizon: u64) -> bool {
        match self.arrivals.get(number).and_then(|arrival| arrival.key()) {
            Some(key) => key.moment > horizon,
            None => false,
        }
    }

    /// The key of an arrival that wasn't acted on yet.
    pub fn waiting_since(&self, number: ArrivalNumber) -> Option<Key> {
        self.arrivals.get(number)?.waiting_since()
    }

    /// The content of a response.
    pub fn content(&self, number: AnswerNumber) -> Option<Content> {
        self.answers.content(number)
    }

    /// The relayed address of the allocation that a response makes, if it makes one.
    pub fn relayed(&self, number: AnswerNumber) -> Option<Addr> {
        self.answers.get(number)?.relayed()
    }

    /// The lane of an arrival; none for a peer's datagram.
    pub fn lane(&self, number: ArrivalNumber) -> Option<LaneNumber> {
        self.arrivals.get(number)?.lane()
    }

    /// The request that a response is to, if that is known.
    pub fn request(&self, number: AnswerNumber) -> Option<ArrivalNumber> {
        self.answers.get(number)?.request()
    }

    /// The response that was linked with a request.
    pub fn noted_answer(&self, number: ArrivalNumber) -> Option<AnswerNumber> {
        self.arrivals.get(number)?.answer()
    }

    /// Whether one of the last responses to the same client before this one wasn't acted on yet.
    pub fn is_behind_another(&self, number: AnswerNumber) -> bool {
        self.answers.is_behind_another(number)
    }

    /// Whether one of the last responses to the same client before this one wasn't acted on yet,
    /// and makes or deletes an allocation.
    pub fn is_behind_change(&self, number: AnswerNumber) -> bool {
        self.answers.is_behind_change(number)
    }

    /// Whether one of the next responses to the same client says that there is no allocation, with
    /// no deletion before that one.
    pub fn is_before_refusal(&self, number: AnswerNumber) -> bool {
        self.answers.is_before_refusal(number)
    }

    /// Takes out the first arrivals of a cause while they were acted on or came before `earliest`,
    /// and returns the first of the others.
    pub fn skip_to_first(&mut self, cause: &Cause, earliest: u64) -> Option<ArrivalNumber> {
        self.arrivals.skip_to_first(cause, earliest)
    }

    /// The next arrival of the same cause.
    pub fn next_arrival(&self, number: ArrivalNumber) -> Option<ArrivalNumber> {
        self.arrivals.next(number)
    }

    /// The last arrival of a cause that was acted on, unless it came too long ago.
    pub fn previous(
        &mut self,
        cause: &Cause,
        earliest: u64,
    ) -> Result<Option<ArrivalNumber>, AllocError> {
        self.arrivals.previous(cause, earliest)
    }

    /// Removes the index entries of arrivals and responses on which nothing more is done after
    /// `moment`. At `moment` the server may act on no arrival before `earliest`.
    pub fn tidy(&mut self, moment: u64, earliest: u64) -> Result<(), AllocError> {
        self.arrivals.tidy(moment)?;
        self.answers.tidy(moment)?;
        // Arrivals that were acted on before this may be looked up until `hold` has passed.
        if self.renewed < earliest {
            self.arrivals.renew();
            self.answers.renew();
            self.renewed = moment;
        }
        Ok(())
    }
}
