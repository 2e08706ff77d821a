//! A certificate while its lines are read.

ghost use Rattle.std.specs.Prelude.{◌≡◌, ◌<◌, false, [], ◌∷◌, ◌++◌, length, vec_len, vec_capacity, OnOk, OnErr};
ghost use Rattle.std.specs.List.{IsDistinct};
ghost use Rattle.audit_model.specs.Lanes.{same_lane, has_pair};
ghost use Rattle.audit_cert.specs.CertLines.{with_event, is_after_skews};

use crate::event_line::{read_event, read_placed, read_skew};
use crate::fault::CertFaultKind;
use audit_model::{
    Addr, CertDrop, CertLane, CertSkew, Certificate, Event, LanePairs, Listed, MAX_EVENTS,
    MAX_LANES, MAX_SKEWS,
};
use audit_text::{both, halves};
use std::alloc::{AllocFailed, Global};
use std::marker::Model;

/// The content of the lines so far.
#[derive(Drop)]
pub struct CertificateDraft {
    alloc: Global,
    lanes: Vec<CertLane>,
    drops: Listed<CertDrop>,
    skews: Listed<CertSkew>,
    /// The client and the listen address of each lane.
    pairs: LanePairs,
    /// The number of events and drops.
    events: usize,
}

impl Model for CertificateDraft {
    ghost use Rattle.audit_cert.specs.DraftView.{Drafted};

    ghost Value = { Drafted };

    ghost use Rattle.audit_cert.specs.Draft.{drafted, IsSound};

    ghost view = { drafted };

    ghost invariant = { IsSound };
}

/// Adds an event to the last lane.
fn push_last(lanes: &mut Vec<CertLane>, event: Event) -> Result<(), AllocFailed<Event>>
    requires { 0 < length lanes.old.items }
    ensures ok { OnOk result (lanes.new.items ≡ with_event event lanes.old.items) }
    ensures err { OnErr result (lanes.new.items ≡ lanes.old.items) }
{
    let last = lanes.len() - 1;
    lanes[last].events.push(event)
}

/// Adds a lane of another client or another listen address than those before it.
#[tactic(auto, using(audit_model::proofs::Apart::apart_push))]
fn push_lane(lanes: &mut Vec<CertLane>, lane: CertLane)
    requires room { vec_len lanes.old < vec_capacity lanes.old }
    requires other { has_pair lane.client lane.listen lanes.old.items ≡ false }
    requires apart { IsDistinct same_lane lanes.old.items }
    ensures items { lanes.new.items ≡ lanes.old.items ++ lane ∷ [] }
    ensures apart { IsDistinct same_lane lanes.new.items }
{
    lanes.push_reserved(lane);
}

/// Whether the interface is greater than that of the last of the skews.
fn is_after(skews: &[CertSkew], iface: u32) -> bool
    ensures { result ≡ is_after_skews skews.now iface }
{
    match skews.last() {
        Some(last) => last.iface < iface,
        None => true,
    }
}

impl CertificateDraft {
    ghost use Rattle.std.specs.Prelude.{Ok, MatchResult, not, ◌==◌};
    ghost use Rattle.audit_text.specs.Reading.{UnlessMemory};
    ghost use Rattle.audit_cert.specs.CertFault.{is_memory};
    ghost use Rattle.audit_cert.specs.DraftView.{nothing_said};
    ghost use Rattle.audit_cert.specs.CertLines.{after_lane, after_event, after_drop, after_skew, after_line};

    #[tactic(auto, using(crate::proofs::Drafts::none_apart))]
    pub fn new(alloc: Global) -> CertificateDraft
        ensures { result ≡ nothing_said }
    {
        CertificateDraft {
            alloc,
            lanes: Vec::new(alloc),
            drops: Listed::new(alloc),
            skews: Listed::new(alloc),
            pairs: LanePairs::new(alloc),
            events: 0,
        }
    }

    /// Adds a lane of no events.
    #[tactic(auto, unfolding(crate::specs::CertLines::after_lane))]
    fn add_lane(&mut self, words: &[u8]) -> Result<(), CertFaultKind>
        ensures { MatchResult result (λ _. after_lane self.old words.now ≡ Ok self.new)
            (λ fault. UnlessMemory is_memory fault (after_lane self.old words.now)) }
    {
        if !self.drops.is_empty() {
            return Err(CertFaultKind::Line);
        }
        let (client, listen) = halves(words, b' ')?;
        let (client, listen) = both(Addr::read(client), Addr::read(listen))?;
        if self.lanes.len() >= MAX_LANES {
            return Err(CertFaultKind::Limit);
        }
        if self.pairs.contains(client, listen) {
            return Err(CertFaultKind::LaneDouble);
        }
        // Memory is reserved first, so that no pair is kept without its lane.
        self.lanes.reserve(1)?;
        self.pairs.insert(client, listen)?;
        let lane = CertLane {
            events: Listed::new(self.alloc),
            client,
            listen,
        };
        push_lane(&mut self.lanes, lane);
        Ok(())
    }

    /// Adds an event to the last lane.
    #[tactic(auto, unfolding(crate::specs::CertLines::after_event))]
    fn add_event(&mut self, word: &[u8], words: &[u8]) -> Result<(), CertFaultKind>
        ensures { MatchResult result (λ _. after_event self.old word.now words.now ≡ Ok self.new)
            (λ fault. UnlessMemory is_memory fault (after_event self.old word.now words.now)) }
    {
        if self.lanes.is_empty() || !self.drops.is_empty() {
            return Err(CertFaultKind::Line);
        }
        let event = read_event(word, words)?;
        if self.events >= MAX_EVENTS {
            return Err(CertFaultKind::Limit);
        }
        push_last(&mut self.lanes, event)?;
        self.events += 1;
        Ok(())
    }

    /// Adds an arrival that was dropped.
    #[tactic(auto, unfolding(crate::specs::CertLines::after_drop))]
    fn add_drop(&mut self, words: &[u8]) -> Result<(), CertFaultKind>
        ensures { MatchResult result (λ _. after_drop self.old words.now ≡ Ok self.new)
            (λ fault. UnlessMemory is_memory fault (after_drop self.old words.now)) }
    {
        let (sight, key) = read_placed(words)?;
        if self.events >= MAX_EVENTS {
            return Err(CertFaultKind::Limit);
        }
        self.drops.push(CertDrop { sight, key })?;
        self.events += 1;
        Ok(())
    }

    /// Whether there is a skew.
    pub fn has_skews(&self) -> bool
        ensures { result ≡ not (length self.now.skews == 0) }
    {
        !self.skews.is_empty()
    }

    /// Adds the skew of an interface.
    #[tactic(auto, unfolding(crate::specs::CertLines::after_skew))]
    pub fn add_skew(&mut self, words: &[u8]) -> Result<(), CertFaultKind>
        ensures { MatchResult result (λ _. after_skew self.old words.now ≡ Ok self.new)
            (λ fault. UnlessMemory is_memory fault (after_skew self.old words.now)) }
    {
        let skew = read_skew(words)?;
        if !is_after(self.skews.as_slice(), skew.iface) {
            return Err(CertFaultKind::SkewOrder);
        }
        if self.skews.len() >= MAX_SKEWS {
            return Err(CertFaultKind::Limit);
        }
        self.skews.push(skew)?;
        Ok(())
    }

    /// Adds one line of a lane or a drop.
    #[tactic(auto, unfolding(crate::specs::CertLines::after_line))]
    pub fn add_line(&mut self, line: &[u8]) -> Result<(), CertFaultKind>
        ensures { MatchResult result (λ _. after_line self.old line.now ≡ Ok self.new)
            (λ fault. UnlessMemory is_memory fault (after_line self.old line.now)) }
    {
        let (word, words) = halves(line, b' ')?;
        if word == b"lane".as_slice() {
            self.add_lane(words)
        } else if word == b"drop".as_slice() {
            self.add_drop(words)
        } else {
            self.add_event(word, words)
        }
    }

    /// The certificate of the lines.
    pub fn certificate(self) -> Certificate
        ensures lanes { result.lanes ≡ self.lanes }
        ensures drops { result.drops ≡ self.drops }
        ensures skews { result.skews ≡ self.skews }
    {
        Certificate {
            lanes: Listed::from(self.lanes),
            drops: self.drops,
            skews: self.skews,
        }
    }
}
