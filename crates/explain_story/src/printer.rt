//! Lines as text.

use crate::causes::{cause_by_frame, cause_line};
use crate::line::{ClientOf, Line, Story};
use crate::place::Printer;
use audit_model::{Addr, Rule};
use explain_frames::GrantSource;
use explain_state::{Ended, GrantAct, LeaseKind, LeaseRow};
use explain_text::{Ip, MethodWord, Quoted, Seconds, meaning};
use std::alloc::{AllocError, Global};

impl Printer<'_> {
    /// The frames of an act, as `frames 17 > 18`.
    fn act(&self, alloc: Global, act: &GrantAct) -> Result<String, AllocError> {
        let arrives = self.number(act.arrives);
        let leaves = self.number(act.leaves);
        format!(in alloc; "frames {arrives} > {leaves}")
    }

    /// Whether a lease has expired at a moment, and by how much.
    fn state(&self, alloc: Global, until: u64, moment: u64) -> Result<String, AllocError> {
        if moment <= until {
            return String::from_str(alloc, "  (lasts)");
        }
        let last = until.saturating_add(self.case.intake.policy().grace);
        let with_grace = self.short(last);
        if moment <= last {
            return format!(in alloc; ", with grace {with_grace}  (in its grace)");
        }
        let over = Seconds {
            nanoseconds: moment.saturating_sub(last),
        };
        format!(in alloc; ", with grace {with_grace}: OVER by {over}")
    }

    /// The last act that renewed a lease.
    fn renewal(&self, alloc: Global, row: &LeaseRow) -> Result<String, AllocError> {
        if row.renewals == 0 {
            return Ok(String::new(alloc));
        }
        let act = self.act(alloc, &row.last)?;
        let method = MethodWord {
            method: row.last.method,
        };
        if row.renewals == 1 {
            return format!(in alloc; ", renewed by {method} {act}");
        }
        let times = row.renewals;
        format!(in alloc; ", renewed {times} times, last by {method} {act}")
    }

    /// The line of a lease, with its state at a moment.
    fn lease_line(&self, alloc: Global, row: &LeaseRow, moment: u64) -> Result<String, AllocError> {
        let name = lease_name(alloc, row.kind)?;
        let method = method_name(alloc, row.made.method)?;
        let act = self.act(alloc, &row.made)?;
        let renewal = self.renewal(alloc, row)?;
        let until = self.short(row.until);
        let state = self.state(alloc, row.until, moment)?;
        format!(in alloc; "  {name:<38}  {method:<16}  {act}{renewal}  until {until}{state}\n")
    }

    /// The line of an allocation that has ended.
    fn ended_line(&self, alloc: Global, ended: &Ended) -> Result<String, AllocError> {
        let relayed = ended.relayed;
        let made = self.act(alloc, &ended.made)?;
        let ending = self.act(alloc, &ended.ending)?;
        let method = MethodWord {
            method: ended.ending.method,
        };
        format!(in alloc; "  allocation {relayed}  {made}, ended by {method}, {ending}\n")
    }

    /// The line about the frame that grants a relayed address and isn't judged.
    fn line_of_owner(&self, alloc: Global, relayed: Addr) -> Result<String, AllocError> {
        let Some(frame) = self.frames.grant_of(relayed) else {
            return Ok(String::new(alloc));
        };
        let capture = self.capture_of(u32::from(frame.file));
        let number = frame.number;
        match frame.source {
            GrantSource::Elsewhere(client) => format!(in alloc;
                "  {capture} frame {number} grants {relayed} in an Allocate success to {client}, a client that isn't judged\n"
            ),
            GrantSource::Unlisted { server, client } => format!(in alloc;
                "  {capture} frame {number} grants {relayed} in an Allocate success of {server} to {client}: the policy lacks {server}\n"
            ),
        }
    }

    /// A line of an explanation.
    pub fn line(&self, alloc: Global, line: &Line, moment: u64) -> Result<String, AllocError> {
        match line {
            Line::Words(words) => format!(in alloc; "{words}\n"),
            Line::Client(client) => client_line(alloc, client),
            Line::Expected(words) => format!(in alloc; "expected: {words}\n"),
            Line::Rule(rule) => rule_line(alloc, *rule),
            Line::GrantedElsewhere(relayed) => self.line_of_owner(alloc, *relayed),
            Line::Datagram(sight) => self.datagram_line(alloc, *sight),
            Line::Lease(row) => self.lease_line(alloc, row, moment),
            Line::Ended(ended) => self.ended_line(alloc, ended),
            Line::WithAct { words, act } => {
                let frames = self.act(alloc, act)?;
                format!(in alloc; "{words}{frames}\n")
            }
            Line::UpTo {
                words,
                sight,
                behind,
            } => {
                let place = self.place(alloc, *sight)?;
                format!(in alloc; "{words}{place}{behind}\n")
            }
        }
    }

    /// The usual causes of a departure whose relayed address no client was granted over UDP, by the
    /// frame that grants it.
    fn cause_by_owner(
        &self,
        alloc: Global,
        story: &Story,
        rule: Rule,
    ) -> Result<String, AllocError> {
        let frame = match ungranted(story) {
            Some(relayed) => self.frames.grant_of(relayed),
            None => None,
        };
        let mut line = cause_line(alloc, rule, cause_by_frame(frame, rule))?;
        line.push_str("\n")?;
        Ok(line)
    }

    /// All lines of an explanation. If it ends with its rule, the causes are looked up here.
    pub fn lines(&self, alloc: Global, story: &Story) -> Result<String, AllocError> {
        let mut text = String::new(alloc);
        for line in &story.lines {
            text.push_str(self.line(alloc, line, story.moment)?.as_str())?;
        }
        if let Some(Line::Rule(rule)) = story.lines.as_slice().last() {
            text.push_str(self.cause_by_owner(alloc, story, *rule)?.as_str())?;
        }
        Ok(text)
    }
}

/// The relayed address in an explanation that no client was granted over UDP.
fn ungranted(story: &Story) -> Option<Addr> {
    for line in &story.lines {
        if let Line::GrantedElsewhere(relayed) = line {
            return Some(*relayed);
        }
    }
    None
}

/// The line of a client.
fn client_line(alloc: Global, of: &ClientOf) -> Result<String, AllocError> {
    let lane = of.lane;
    let client = of.client;
    let listen = of.listen;
    let ends = format!(in alloc; "client {client} at {listen}")?;
    let Some(account) = &of.account else {
        return format!(in alloc; "{ends:<50} lane {lane}, no user was named\n");
    };
    let user = Quoted {
        bytes: &account.user,
    };
    let realm = Quoted {
        bytes: &account.realm,
    };
    format!(in alloc; "{ends:<50} lane {lane}, user \"{user}\", realm \"{realm}\"\n")
}

/// The line about what a rule requires.
fn rule_line(alloc: Global, rule: Rule) -> Result<String, AllocError> {
    let meaning = meaning(rule);
    format!(in alloc; "rule: {meaning}\n")
}

/// The name of a lease.
fn lease_name(alloc: Global, kind: LeaseKind) -> Result<String, AllocError> {
    match kind {
        LeaseKind::Allocation { relayed } => format!(in alloc; "allocation {relayed}"),
        LeaseKind::Permission { ip } => {
            let ip = Ip { ip };
            format!(in alloc; "permission {ip}")
        }
        LeaseKind::Channel { number, peer } => {
            format!(in alloc; "channel 0x{number:04X} to {peer}")
        }
    }
}

/// The name of a method.
fn method_name(alloc: Global, method: u16) -> Result<String, AllocError> {
    let method = MethodWord { method };
    format!(in alloc; "{method}")
}
