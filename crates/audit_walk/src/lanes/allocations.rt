//! Allocations that aren't made yet, and relayed addresses that several clients have in turn.

use crate::datagrams::{Answer, Datagrams};
use crate::judge::Judge;
use crate::numbers::AnswerNumber;
use audit_model::Addr;
use std::alloc::{AllocError, Global};
use std::collections::BTreeSet;

/// How many of them are looked at for one.
const LOOKED_AT: usize = 8;

/// A response that makes an allocation, and wasn't acted on yet.
#[derive(Clone, Copy, PartialEq, Eq, PartialOrd, Ord)]
struct Expected {
    relayed: Addr,
    /// The first moment at which it leaves.
    moment: u64,
    answer: AnswerNumber,
}

/// Responses that are expected, by the relayed address and the first moment at which they leave.
#[derive(Drop)]
pub struct Allocations {
    answers: BTreeSet<Expected>,
}

impl Allocations {
    pub fn new(alloc: Global) -> Allocations {
        Allocations {
            answers: BTreeSet::new(alloc),
        }
    }

    pub fn insert(
        &mut self,
        relayed: Addr,
        moment: u64,
        answer: AnswerNumber,
    ) -> Result<(), AllocError> {
        self.answers.insert(Expected {
            relayed,
            moment,
            answer,
        })?;
        Ok(())
    }

    pub fn remove(&mut self, relayed: Addr, moment: u64, answer: AnswerNumber) {
        self.answers.remove(&Expected {
            relayed,
            moment,
            answer,
        });
    }

    /// The first response that makes an allocation of a relayed address, and on whose request the
    /// server may act at a moment.
    pub fn first(
        &self,
        judge: &Judge<'_>,
        datagrams: &Datagrams,
        relayed: Addr,
        moment: u64,
    ) -> Option<AnswerNumber> {
        let from = Expected {
            relayed,
            moment: 0,
            answer: AnswerNumber::new(0),
        };
        for expected in self.answers.range(from..).take(LOOKED_AT) {
            if expected.relayed != relayed {
                return None;
            }
            if let Some(request) = datagrams.request(expected.answer) {
                if datagrams.may_act_at(judge, moment, request) {
                    return Some(expected.answer);
                }
            }
        }
        None
    }

    /// The first moment, not before `from`, at which a response leaves that makes an allocation of
    /// a relayed address.
    pub fn next_moment(&self, relayed: Addr, from: u64) -> Option<u64> {
        let from = Expected {
            relayed,
            moment: from,
            answer: AnswerNumber::new(0),
        };
        for expected in self.answers.range(from..).take(1) {
            if expected.relayed == relayed {
                return Some(expected.moment);
            }
        }
        None
    }

    /// Whether another client must have had the relayed address before: its allocation can end
    /// before this one is made, and this one can't end before that one is made.
    pub fn has_to_follow(
        &self,
        judge: &Judge<'_>,
        datagrams: &Datagrams,
        answer: &Answer,
        earliest: u64,
    ) -> bool {
        let (Some(relayed), Some(leaves)) = (answer.relayed(), judge.sighting(answer.sight()))
        else {
            return false;
        };
        let until = judge.latest_moment(leaves);
        let from = Expected {
            relayed,
            moment: earliest,
            answer: AnswerNumber::new(0),
        };
        for other in self.answers.range(from..).take(LOOKED_AT) {
            if other.relayed != relayed || other.moment >= until {
                return false;
            }
            if let Some(other) = datagrams.answer(other.answer) {
                if other.lane() != answer.lane()
                    && other.is_deleted_before(until)
                    && !may_precede(judge, answer, other)
                {
                    return true;
                }
            }
        }
        false
    }
}

/// Whether an allocation can have ended before another one is made.
fn may_precede(judge: &Judge<'_>, answer: &Answer, other: &Answer) -> bool {
    match judge.sighting(other.sight()) {
        Some(leaves) => answer.is_deleted_before(judge.latest_moment(leaves)),
        None => false,
    }
}
