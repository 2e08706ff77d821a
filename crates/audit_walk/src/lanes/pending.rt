//! The delayed responses to a client.

use crate::content::Content;
use crate::datagrams::Datagrams;
use crate::numbers::AnswerNumber;
use audit_model::SightId;
use std::alloc::{AllocError, Global};
use std::collections::BTreeMap;
use std::ops::Bound;

/// How many delayed responses are looked at for one that makes or deletes an allocation.
const LOOKED_AT: usize = 8;

/// The responses that weren't acted on when their requests arrived, and haven't left yet.
#[derive(Drop)]
pub struct Pending {
    answers: BTreeMap<SightId, AnswerNumber>,
    /// The response that says that the allocation is deleted, while that is not done yet.
    deletion: Option<AnswerNumber>,
}

impl Pending {
    pub fn new(alloc: Global) -> Pending {
        Pending {
            answers: BTreeMap::new(alloc),
            deletion: None,
        }
    }

    /// Adds a response.
    pub fn insert(
        &mut self,
        sight: SightId,
        answer: AnswerNumber,
        content: Content,
    ) -> Result<(), AllocError> {
        self.answers.insert(sight, answer)?;
        if content == Content::Deleted {
            self.deletion = Some(answer);
        }
        Ok(())
    }

    /// Takes out a response that was acted on, if it is one of them.
    pub fn remove(&mut self, sight: SightId, answer: AnswerNumber) {
        self.answers.remove(&sight);
        if self.deletion == Some(answer) {
            self.deletion = None;
        }
    }

    /// The response that says that the allocation is deleted, while that is not done yet.
    pub fn deletion(&self) -> Option<AnswerNumber> {
        self.deletion
    }

    /// Whether a response that wasn't acted on yet leaves before this one.
    pub fn has_before(&self, answer: SightId) -> bool {
        match self.answers.first_key_value() {
            Some((first, _)) => *first < answer,
            None => false,
        }
    }

    /// The first response, except this one, that makes or deletes an allocation.
    pub fn first_change(&self, datagrams: &Datagrams, but: AnswerNumber) -> Option<AnswerNumber> {
        for (_, answer) in self.answers.iter().take(LOOKED_AT) {
            if *answer != but {
                if datagrams
                    .content(*answer)
                    .is_some_and(|content| content.is_change())
                {
                    return Some(*answer);
                }
            }
        }
        None
    }

    /// The first response that makes an allocation.
    pub fn first_allocation(&self, datagrams: &Datagrams) -> Option<AnswerNumber> {
        for (_, answer) in self.answers.iter().take(LOOKED_AT) {
            if datagrams.relayed(*answer).is_some() {
                return Some(*answer);
            }
        }
        None
    }

    /// The first response after another one that neither makes nor deletes an allocation.
    pub fn next_other(
        &self,
        datagrams: &Datagrams,
        after: Option<SightId>,
    ) -> Option<(SightId, AnswerNumber)> {
        let rest = match after {
            Some(after) => self
                .answers
                .range((Bound::Excluded(after), Bound::Unbounded)),
            None => self.answers.range(..),
        };
        for (sight, answer) in rest.take(LOOKED_AT) {
            if datagrams
                .content(*answer)
                .is_some_and(|content| !content.is_change())
            {
                return Some((*sight, *answer));
            }
        }
        None
    }
}
