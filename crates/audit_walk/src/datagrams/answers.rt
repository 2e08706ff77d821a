//! The success and error responses that leave.

use crate::causes::Cause;
use crate::content::Content;
use crate::numbers::{AnswerNumber, ArrivalNumber};
use crate::queues::Queues;
use audit_model::{Addr, SightId};
use audit_seen::LaneNumber;
use std::alloc::{AllocError, Global};

/// How many responses to the same client are looked at before and after a response.
const NEIGHBOURS: u32 = 8;

/// The lane and the transaction id of a response.
#[derive(Clone, Copy, Debug, PartialEq, Eq)]
pub struct Transaction {
    lane: LaneNumber,
    id: [u8; 12],
}

impl Transaction {
    pub fn new(lane: LaneNumber, id: [u8; 12]) -> Transaction {
        Transaction { lane, id }
    }

    pub fn lane(&self) -> LaneNumber {
        self.lane
    }

    /// The cause of the requests that such a response answers.
    pub fn cause(&self) -> Cause {
        let Transaction { lane, id } = *self;
        Cause::Request { lane, id }
    }

    fn digest(&self) -> u64 {
        self.cause().digest()
    }
}

/// A success or error response.
#[derive(Clone, Copy, Debug)]
pub struct Answer {
    sight: SightId,
    content: Content,
    /// The request that it answers, once that is known.
    request: Option<ArrivalNumber>,
    lane: LaneNumber,
    /// The responses to the same client before and after it.
    before: Option<AnswerNumber>,
    behind: Option<AnswerNumber>,
    /// For a new allocation, the earliest moment at which the response leaves that deletes it.
    deleted_from: Option<u64>,
    is_acted: bool,
}

impl Answer {
    /// A response to a client, after another one if there is one.
    pub fn new(
        sight: SightId,
        content: Content,
        lane: LaneNumber,
        before: Option<AnswerNumber>,
    ) -> Answer {
        Answer {
            sight,
            content,
            request: None,
            lane,
            before,
            behind: None,
            deleted_from: None,
            is_acted: false,
        }
    }

    /// Sets the request, if that is known.
    pub fn to(self, request: Option<ArrivalNumber>) -> Answer {
        let mut answer = self;
        answer.request = request;
        answer
    }

    pub fn sight(&self) -> SightId {
        self.sight
    }

    pub fn content(&self) -> Content {
        self.content
    }

    /// The relayed address of the allocation that it makes, if it makes one.
    pub fn relayed(&self) -> Option<Addr> {
        match self.content {
            Content::Allocated(relayed) => Some(relayed),
            _ => None,
        }
    }

    /// The request that it answers, once that is known.
    pub fn request(&self) -> Option<ArrivalNumber> {
        self.request
    }

    pub fn lane(&self) -> LaneNumber {
        self.lane
    }

    /// Whether the server's act of it was placed.
    pub fn is_acted(&self) -> bool {
        self.is_acted
    }

    /// Whether it makes an allocation that is deleted before a moment.
    pub fn is_deleted_before(&self, moment: u64) -> bool {
        match self.deleted_from {
            Some(from) => from < moment,
            None => false,
        }
    }
}

/// All responses by number, and those without a request by their transaction.
#[derive(Drop)]
pub struct Answers {
    list: Vec<Answer>,
    queues: Queues,
}

impl Answers {
    pub fn new(alloc: Global) -> Answers {
        Answers {
            list: Vec::new(alloc),
            queues: Queues::new(alloc),
        }
    }

    /// Adds a response that can leave until `until`, and returns its number. If no request is known
    /// for it, it is queued by its transaction.
    pub fn add(
        &mut self,
        answer: Answer,
        transaction: &Transaction,
        until: u64,
    ) -> Result<AnswerNumber, AllocError> {
        self.list.push(answer)?;
        let digest = if answer.request.is_none() {
            Some(transaction.digest())
        } else {
            None
        };
        let number = self.queues.add(digest)?;
        self.queues.wait_until(number, until);
        let number = AnswerNumber::new(number);
        if let Some(before) = answer.before {
            if let Some(before) = self.get_mut(before) {
                before.behind = Some(number);
            }
        }
        Ok(number)
    }

    pub fn get(&self, number: AnswerNumber) -> Option<&Answer> {
        self.list.get(number.index())
    }

    /// Whether one of the last responses to the same client before this one wasn't acted on yet.
    pub fn is_behind_another(&self, number: AnswerNumber) -> bool {
        self.is_behind(number, false)
    }

    /// Whether one of the last responses to the same client before this one wasn't acted on yet,
    /// and makes or deletes an allocation.
    pub fn is_behind_change(&self, number: AnswerNumber) -> bool {
        self.is_behind(number, true)
    }

    fn is_behind(&self, number: AnswerNumber, only_changes: bool) -> bool {
        let mut before = self.before(number);
        for _ in 0..NEIGHBOURS {
            let Some(one) = before else {
                return false;
            };
            let Some(answer) = self.get(one) else {
                return false;
            };
            if !answer.is_acted && (answer.content.is_change() || !only_changes) {
                return true;
            }
            before = answer.before;
        }
        false
    }

    /// Whether one of the next responses to the same client says that there is no allocation, with
    /// no deletion before that one.
    pub fn is_before_refusal(&self, number: AnswerNumber) -> bool {
        let mut behind = self.behind(number);
        for _ in 0..NEIGHBOURS {
            let Some(one) = behind else {
                return false;
            };
            match self.content(one) {
                Some(Content::NoAllocation) => return true,
                Some(Content::Deleted) => return false,
                _ => behind = self.behind(one),
            }
        }
        false
    }

    fn before(&self, number: AnswerNumber) -> Option<AnswerNumber> {
        self.get(number)?.before
    }

    fn behind(&self, number: AnswerNumber) -> Option<AnswerNumber> {
        self.get(number)?.behind
    }

    /// The content of a response.
    pub fn content(&self, number: AnswerNumber) -> Option<Content> {
        Some(self.get(number)?.content)
    }

    /// Sets the request of a response.
    pub fn note_request(&mut self, number: AnswerNumber, request: ArrivalNumber) {
        if let Some(answer) = self.get_mut(number) {
            answer.request = Some(request);
        }
    }

    /// Notes the earliest moment at which the response leaves that deletes this one's allocation.
    pub fn note_deletion(&mut self, number: AnswerNumber, from: u64) {
        if let Some(answer) = self.get_mut(number) {
            answer.deleted_from = Some(from);
        }
    }

    /// Marks a response as acted on, and returns it.
    pub fn act(&mut self, number: AnswerNumber) -> Option<Answer> {
        let answer = self.get_mut(number)?;
        answer.is_acted = true;
        Some(*answer)
    }

    fn get_mut(&mut self, number: AnswerNumber) -> Option<&mut Answer> {
        self.list.get_mut(number.index())
    }

    /// The first response of the transaction without a request.
    pub fn first(&self, transaction: &Transaction) -> Option<AnswerNumber> {
        let queue = self.queues.queue_of(transaction.digest())?;
        Some(AnswerNumber::new(self.queues.first(queue)?))
    }

    /// Removes from time to time the queues whose responses have left before a moment, so that the
    /// others are found sooner.
    pub fn tidy(&mut self, moment: u64) -> Result<(), AllocError> {
        self.queues.tidy(moment)
    }

    /// Forgets the responses that were taken out before the last call.
    pub fn renew(&mut self) {
        self.queues.renew();
    }

    /// Takes the first response of the transaction out of its queue.
    pub fn skip(&mut self, transaction: &Transaction) {
        if let Some(queue) = self.queues.queue_of(transaction.digest()) {
            self.queues.skip(queue);
        }
    }
}
