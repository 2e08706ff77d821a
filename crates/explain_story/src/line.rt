//! Lines whose frames are looked up before they are printed.

use audit_model::{Addr, Rule, SightId};
use explain_frames::Frames;
use explain_state::{Ended, GrantAct, LeaseRow};
use std::alloc::{AllocError, Global};

/// The name and the realm of a user, as in a request.
#[derive(Drop)]
pub struct Account {
    pub user: Vec<u8>,
    pub realm: Vec<u8>,
}

/// The client of a lane.
#[derive(Drop)]
pub struct ClientOf {
    pub lane: u32,
    pub client: Addr,
    pub listen: Addr,
    /// The last known user that its requests named.
    pub account: Option<Account>,
}

/// A line of an explanation.
#[derive(Drop)]
pub enum Line {
    /// Text as it is.
    Words(String),
    /// The client of the lane.
    Client(ClientOf),
    /// The expected behaviour.
    Expected(String),
    /// What the rule requires, and the usual causes of its breaches.
    Rule(Rule),
    /// A datagram, with its frame.
    Datagram(SightId),
    /// A lease, with the frames that granted and renewed it.
    Lease(LeaseRow),
    /// An allocation that has ended, with the frames that made and ended it.
    Ended(Ended),
    /// Text, then the frames of an act.
    WithAct {
        words: String,
        act: GrantAct,
    },
    /// Text, then the frame of a datagram, then text.
    UpTo {
        words: String,
        sight: SightId,
        behind: String,
    },
    /// The frame that grants a relayed address and isn't judged; no line if there is none.
    GrantedElsewhere(Addr),
}

/// Lines in order, and the moment at which leases are looked at.
#[derive(Drop)]
pub struct Story {
    pub lines: Vec<Line>,
    /// In nanoseconds since 1970.
    pub moment: u64,
    /// The departure that violates a rule, if it is one.
    pub departure: Option<SightId>,
    alloc: Global,
}

/// Adds the datagrams of an act.
fn add_act(sights: &mut Vec<SightId>, act: &GrantAct) -> Result<(), AllocError> {
    sights.push(act.arrives)?;
    sights.push(act.leaves)?;
    Ok(())
}

/// Adds the datagrams of a line.
fn add_sights(sights: &mut Vec<SightId>, line: &Line) -> Result<(), AllocError> {
    match line {
        Line::Words(_) | Line::Client(_) | Line::Expected(_) | Line::Rule(_) => Ok(()),
        Line::GrantedElsewhere(_) => Ok(()),
        Line::Datagram(sight) | Line::UpTo { sight, .. } => {
            sights.push(*sight)?;
            Ok(())
        }
        Line::Lease(row) => {
            add_act(sights, &row.made)?;
            add_act(sights, &row.last)
        }
        Line::WithAct { act, .. } => add_act(sights, act),
        Line::Ended(ended) => {
            add_act(sights, &ended.made)?;
            add_act(sights, &ended.ending)
        }
    }
}

impl Story {
    /// A story without lines. It takes no memory.
    pub fn new(alloc: Global, moment: u64) -> Story {
        Story {
            lines: Vec::new(alloc),
            moment,
            departure: None,
            alloc,
        }
    }

    /// The allocator of its lines.
    pub fn alloc(&self) -> Global {
        self.alloc
    }

    /// Adds a line.
    pub fn add(&mut self, line: Line) -> Result<(), AllocError> {
        self.lines.push(line)?;
        Ok(())
    }

    /// Adds text.
    pub fn say(&mut self, words: String) -> Result<(), AllocError> {
        self.lines.push(Line::Words(words))?;
        Ok(())
    }

    /// Adds text that is the same in every explanation.
    pub fn put(&mut self, words: &str) -> Result<(), AllocError> {
        let words = String::from_str(self.alloc, words)?;
        self.say(words)
    }

    /// Adds the expected behaviour.
    pub fn due(&mut self, words: String) -> Result<(), AllocError> {
        self.add(Line::Expected(words))
    }

    /// Adds a datagram.
    pub fn show(&mut self, sight: SightId) -> Result<(), AllocError> {
        self.add(Line::Datagram(sight))
    }

    /// Adds a lease, if there is one.
    pub fn lease(&mut self, row: Option<LeaseRow>) -> Result<(), AllocError> {
        match row {
            Some(row) => self.add(Line::Lease(row)),
            None => Ok(()),
        }
    }

    /// The datagrams of all lines, some perhaps more than once.
    pub fn sights(&self) -> Result<Vec<SightId>, AllocError> {
        let mut sights = Vec::new(self.alloc);
        for line in &self.lines {
            add_sights(&mut sights, line)?;
        }
        Ok(sights)
    }

    /// Requests the frames of all lines.
    pub fn request_frames(&self, frames: &mut Frames) -> Result<(), AllocError> {
        for sight in &self.sights()? {
            frames.request(*sight)?;
        }
        for line in &self.lines {
            if let Line::GrantedElsewhere(relayed) = line {
                frames.look_for_grant(*relayed)?;
            }
        }
        Ok(())
    }
}
