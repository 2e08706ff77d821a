//! The last of each kind of a client's datagrams.

use crate::content::Content;
use crate::numbers::{AnswerNumber, ArrivalNumber};

/// The last arrivals that were placed, and the last responses that were noted.
#[derive(Clone, Copy, Debug)]
pub struct Last {
    request: Option<ArrivalNumber>,
    sent: Option<ArrivalNumber>,
    received: Option<ArrivalNumber>,
    answer: Option<AnswerNumber>,
    /// The last response that makes an allocation, if none deletes it.
    allocation: Option<AnswerNumber>,
}

impl Last {
    /// There was none yet.
    pub fn new() -> Last {
        Last {
            request: None,
            sent: None,
            received: None,
            answer: None,
            allocation: None,
        }
    }

    /// The last request of the client.
    pub fn request(&self) -> Option<ArrivalNumber> {
        self.request
    }

    pub fn note_request(&mut self, number: ArrivalNumber) {
        self.request = Some(number);
    }

    /// The last data of the client.
    pub fn sent(&self) -> Option<ArrivalNumber> {
        self.sent
    }

    pub fn note_sent(&mut self, number: ArrivalNumber) {
        self.sent = Some(number);
    }

    /// The last data of a peer to the client.
    pub fn received(&self) -> Option<ArrivalNumber> {
        self.received
    }

    pub fn note_received(&mut self, number: ArrivalNumber) {
        self.received = Some(number);
    }

    /// The last response to the client.
    pub fn answer(&self) -> Option<AnswerNumber> {
        self.answer
    }

    /// Notes the next response to the client. If it deletes an allocation, returns the response
    /// that makes that allocation.
    pub fn note_answer(&mut self, number: AnswerNumber, content: Content) -> Option<AnswerNumber> {
        self.answer = Some(number);
        match content {
            Content::Allocated(_) => {
                self.allocation = Some(number);
                None
            }
            Content::Deleted => std::mem::replace(&mut self.allocation, None),
            _ => None,
        }
    }
}
