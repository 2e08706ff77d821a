//! Pairs requests with responses.

use super::Datagrams;
use super::answers::Transaction;
use crate::clock::Clock;
use crate::judge::Judge;
use crate::numbers::{AnswerNumber, ArrivalNumber};
use audit_model::Sighting;
use std::alloc::AllocError;

/// How many candidates are tried.
pub const CANDIDATES: u32 = 64;

impl Datagrams {
    /// The sighting of an arrival.
    pub fn arrives<'a>(&self, judge: &Judge<'a>, number: ArrivalNumber) -> Option<&'a Sighting> {
        judge.sighting(self.arrivals.get(number)?.sight())
    }

    /// The sighting of a response.
    pub fn leaves<'a>(&self, judge: &Judge<'a>, number: AnswerNumber) -> Option<&'a Sighting> {
        judge.sighting(self.answers.get(number)?.sight())
    }

    /// The last request of a transaction that came before a response on the same interface, at most
    /// `hold` earlier, if it has no other response.
    pub fn request_before(
        &self,
        judge: &Judge<'_>,
        answer: &Sighting,
        transaction: &Transaction,
    ) -> Option<ArrivalNumber> {
        let number = self.arrivals.last(&transaction.cause())?;
        let arrival = self.arrivals.get(number)?;
        if arrival.sight().iface != answer.id.iface || arrival.answer().is_some() {
            return None;
        }
        let request = judge.sighting(arrival.sight())?;
        if judge.first_moment(answer) > judge.latest_answer(judge.latest_moment(request)) {
            return None;
        }
        Some(number)
    }

    /// The earliest moment of an arrival from which the response linked with it leaves within
    /// `hold`; 0 if it has none.
    pub fn earliest_request(&self, judge: &Judge<'_>, number: ArrivalNumber) -> u64 {
        let Some(answer) = self.noted_answer(number) else {
            return 0;
        };
        match self.leaves(judge, answer) {
            Some(leaves) => judge.earliest_arrival(judge.first_moment(leaves)),
            None => 0,
        }
    }

    /// Finds the response to a request that has a key and no response yet: the first of its
    /// transaction that has no request and leaves in time.
    pub fn reserve(
        &mut self,
        judge: &Judge<'_>,
        number: ArrivalNumber,
        transaction: &Transaction,
    ) -> Option<AnswerNumber> {
        let moment = self.arrivals.get(number)?.key()?.moment;
        let answer = self.skip_to_answer(judge, moment, transaction)?;
        let leaves = self.leaves(judge, answer)?;
        if judge.first_moment(leaves) > judge.latest_answer(moment) {
            return None;
        }
        self.answers.skip(transaction);
        self.answers.note_request(answer, number);
        self.arrivals.note_answer(number, answer);
        Some(answer)
    }

    /// Takes out the first responses of a transaction while they have no request and can't leave
    /// from a moment on, and returns the first of the others.
    fn skip_to_answer(
        &mut self,
        judge: &Judge<'_>,
        moment: u64,
        transaction: &Transaction,
    ) -> Option<AnswerNumber> {
        for _ in 0..CANDIDATES {
            let answer = self.answers.first(transaction)?;
            if judge.last_moment(self.leaves(judge, answer)?) >= moment {
                return Some(answer);
            }
            self.answers.skip(transaction);
        }
        None
    }

    /// The most likely request of a response that leaves now: the first of its transaction that
    /// wasn't acted on yet, or else the last that was.
    pub fn likely_request(
        &mut self,
        transaction: &Transaction,
        earliest: u64,
    ) -> Result<Option<ArrivalNumber>, AllocError> {
        let cause = transaction.cause();
        let first = self.arrivals.skip_to_first(&cause, earliest);
        if first.is_some() {
            return Ok(first);
        }
        self.arrivals.previous(&cause, earliest)
    }

    /// Whether an arrival has no key yet, and can get one before the current departure.
    pub fn may_come(&self, judge: &Judge<'_>, clock: &Clock, number: ArrivalNumber) -> bool {
        match self.arrivals.get(number) {
            Some(arrival) if arrival.key().is_none() => match judge.sighting(arrival.sight()) {
                Some(sighting) => {
                    judge.first_moment(sighting) <= clock.latest() && clock.has_time()
                }
                None => false,
            },
            _ => false,
        }
    }

    /// Whether a response may leave at a moment: it was acted on, and its request, if that is
    /// known, came at most `hold` before the moment.
    pub fn may_leave(&self, judge: &Judge<'_>, moment: u64, answer: AnswerNumber) -> bool {
        let Some(answer) = self.answers.get(answer) else {
            return false;
        };
        let came = match answer.request() {
            Some(request) => self.arrivals.get(request).and_then(|request| request.key()),
            None => return answer.is_acted(),
        };
        answer.is_acted() && came.is_some_and(|came| moment <= judge.latest_answer(came.moment))
    }

    /// Whether an arrival came at most `hold` before a moment, and wasn't acted on yet.
    pub fn may_act_at(&self, judge: &Judge<'_>, moment: u64, number: ArrivalNumber) -> bool {
        match self.waiting_since(number) {
            Some(came) => moment <= judge.latest_answer(came.moment),
            None => false,
        }
    }
}
