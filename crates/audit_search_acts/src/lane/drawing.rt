//! Pending acts that are moved before a departure so that the rules accept it.

use super::Lane;
use audit_model::Rule;
use audit_search_state::Refused;
use audit_seen::{SeenNumber, Slot};
use std::alloc::AllocError;

/// How many acts are moved before one departure.
pub(crate) const DEPTH: usize = 4;

/// How many sequences of acts are continued.
const BREADTH: usize = 32;

/// Responses that are sent in this order, before a departure.
pub type Draw = Vec<SeenNumber>;

/// The result of sending the responses of a draw and then the departure.
#[derive(Clone, Copy, Debug)]
enum Drawn {
    /// This response can't be sent there, and why.
    Stuck(SeenNumber, Refused),
    /// They can be sent, and the departure can't.
    Refused(Refused),
    Accepted,
}

impl Lane<'_> {
    /// The shortest draws after which a departure is accepted, all of one length.
    pub(crate) fn draws(
        &mut self,
        departure: SeenNumber,
        refused: Refused,
        limit: u64,
    ) -> Result<Vec<Draw>, AllocError> {
        let mut found = Vec::new(self.input.alloc());
        let mut open: Vec<Draw> = Vec::new(self.input.alloc());
        open.push(Vec::new(self.input.alloc()))?;
        let mut first = Some(refused);
        for _ in 0..DEPTH {
            open = self.longer(departure, open, first, limit, &mut found)?;
            first = None;
            if !found.is_empty() || open.is_empty() {
                break;
            }
        }
        Ok(found)
    }

    /// Continues some draws by one act; accepted draws go to `found`.
    fn longer(
        &mut self,
        departure: SeenNumber,
        open: Vec<Draw>,
        first: Option<Refused>,
        limit: u64,
        found: &mut Vec<Draw>,
    ) -> Result<Vec<Draw>, AllocError> {
        let mut next = Vec::new(self.input.alloc());
        for draw in open {
            for longer in self.extended(departure, &draw, first)? {
                if self.steps > limit || next.len() >= BREADTH {
                    return Ok(next);
                }
                match self.try_draw(departure, &longer)? {
                    Drawn::Accepted => found.push(longer)?,
                    Drawn::Refused(_) | Drawn::Stuck(..) => next.push(longer)?,
                }
            }
        }
        Ok(next)
    }

    /// A draw with one more act, in each way that may help.
    fn extended(
        &mut self,
        departure: SeenNumber,
        draw: &Draw,
        first: Option<Refused>,
    ) -> Result<Vec<Draw>, AllocError> {
        let mut found = Vec::new(self.input.alloc());
        let drawn = match first {
            Some(refused) => Drawn::Refused(refused),
            None => self.try_draw(departure, draw)?,
        };
        match drawn {
            Drawn::Accepted => {}
            Drawn::Refused(refused) => {
                for answer in self.pending(departure, refused)? {
                    if !draw.contains(&answer) {
                        let mut longer = Vec::from_slice(self.input.alloc(), draw.as_slice())?;
                        longer.push(answer)?;
                        found.push(longer)?;
                    }
                }
            }
            // Another answer is drawn only before one that waits for it.
            Drawn::Stuck(answer, refused) if is_waiting(refused) => {
                for before in self.pending(departure, refused)? {
                    if !draw.contains(&before) {
                        found.push(self.with_before(draw, answer, before)?)?;
                    }
                }
            }
            Drawn::Stuck(..) => {}
        }
        Ok(found)
    }

    /// A draw with one response inserted before another one of it.
    fn with_before(
        &self,
        draw: &Draw,
        answer: SeenNumber,
        before: SeenNumber,
    ) -> Result<Draw, AllocError> {
        let mut longer = Vec::new(self.input.alloc());
        for one in draw {
            if *one == answer {
                longer.push(before)?;
            }
            longer.push(*one)?;
        }
        Ok(longer)
    }

    /// Sends the responses of a draw and the departure, and undoes all of that.
    fn try_draw(&mut self, departure: SeenNumber, draw: &Draw) -> Result<Drawn, AllocError> {
        let mark = self.state.mark();
        let drawn = self.act_on_all(departure, draw)?;
        self.state.undo(mark);
        Ok(drawn)
    }

    fn act_on_all(&mut self, departure: SeenNumber, draw: &Draw) -> Result<Drawn, AllocError> {
        let slot = Slot::before(self.input.rank(departure));
        let moment = self.input.at(departure);
        for answer in draw {
            if let Some(refused) = self.act_now(*answer, slot, moment)? {
                return Ok(Drawn::Stuck(*answer, refused));
            }
        }
        match self.act_now(departure, slot, moment)? {
            Some(refused) => Ok(Drawn::Refused(refused)),
            None => Ok(Drawn::Accepted),
        }
    }
}

fn is_waiting(refused: Refused) -> bool {
    matches!(
        refused,
        Refused::Rule(Rule::AllocationPresent | Rule::NoAllocation | Rule::AllocationOver)
    )
}
