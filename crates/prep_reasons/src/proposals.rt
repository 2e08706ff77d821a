//! The lines in the order of the list, and the proposal for each packet.

use crate::groups::propose_groups;
use crate::pairing::Pairing;
use crate::sheet::Sheet;
use crate::unread::Carrying;
use audit_model::Side;
use prep_causes::{CauseNumber, MaybeNumber};
use prep_cut::{LineNumber, Proposal, Reason};
use prep_records::CapturePackets;
use std::alloc::{AllocError, Global};

/// The result of the decisions.
#[derive(Debug, Drop)]
pub struct Proposed {
    /// The moment at which the captures begin, in nanoseconds since 1970.
    pub begin: u64,
    /// The reasons of the list's lines, in order. A line may exclude no packet.
    pub lines: Vec<Reason>,
    /// For each capture the proposal for each of its packets.
    pub captures: Vec<Vec<Proposal>>,
    /// The number of pairs of a departure and its arrival.
    pub causes: CauseNumber,
    /// The number of groups of carriers and departures. Their numbers follow those of the pairs.
    pub groups: CauseNumber,
    /// Departures of clients from before that no state from before allows, and that stay in.
    pub beyond: u64,
    /// Clients with their listen addresses from which an arrival stays in.
    pub lanes: u64,
}

/// The number of each line among those in the order of the list.
#[derive(Drop)]
struct Ordered {
    reasons: Vec<Reason>,
    numbers: Vec<LineNumber>,
}

/// Orders the lines by their reasons, and then by their first datagram.
fn order_lines(sheet: &Sheet<'_>) -> Result<Ordered, AllocError> {
    let count = sheet.lines.reasons.len();
    let mut first = vec![in sheet.alloc; usize::MAX; count]?;
    for at in 0..sheet.why.len() {
        if let Some(line) = sheet.line_of(at) {
            if let Some(mark) = first.get_mut(line as usize) {
                *mark = (*mark).min(at);
            }
        }
    }
    let mut keys = Vec::new(sheet.alloc);
    for (line, reason) in sheet.lines.reasons.iter().enumerate() {
        let at = first.get(line).copied().unwrap_or(usize::MAX);
        keys.push((reason.kind(), at, line))?;
    }
    keys.sort()?;
    let mut reasons = Vec::new(sheet.alloc);
    let mut numbers = vec![in sheet.alloc; 0u32; count]?;
    for (number, key) in keys.iter().enumerate() {
        if let Some(reason) = sheet.lines.reasons.get(key.2) {
            reasons.push(*reason)?;
        }
        if let Some(mark) = numbers.get_mut(key.2) {
            *mark = u32::try_from(number).unwrap_or(u32::MAX);
        }
    }
    Ok(Ordered { reasons, numbers })
}

/// The proposal for a packet that stays in.
fn no_proposal() -> Proposal {
    Proposal {
        line: MaybeNumber::none(),
        cause: MaybeNumber::none(),
    }
}

/// The proposal of a line by its number in the list, with the number of a pair.
fn proposal_of(ordered: &Ordered, line: LineNumber, cause: MaybeNumber) -> Proposal {
    let line = match ordered.numbers.get(line as usize) {
        Some(line) => MaybeNumber::some(*line),
        None => MaybeNumber::none(),
    };
    Proposal { line, cause }
}

/// Proposes the lines, after all decisions.
pub(crate) fn propose(
    sheet: &mut Sheet<'_>,
    packets: &[CapturePackets],
    pairing: &Pairing,
    carrying: &mut Carrying,
) -> Result<Proposed, AllocError> {
    let early = sheet.lines.number_of(Reason::BeforeSince)?;
    let late = sheet.lines.number_of(Reason::AfterUntil)?;
    let ordered = order_lines(sheet)?;
    sheet.forget_marks();
    let mut captures = Vec::new(sheet.alloc);
    for capture in packets {
        let mut proposals: Vec<Proposal> =
            vec![in sheet.alloc; no_proposal(); capture.count as usize]?;
        for outside in &capture.outside {
            let line = if outside.is_early { early } else { late };
            if let Some(mark) = proposals.get_mut(outside.packet as usize) {
                *mark = proposal_of(&ordered, line, MaybeNumber::none());
            }
        }
        captures.push(proposals)?;
    }
    for at in 0..sheet.records.len() {
        let (Some(record), Some(line)) = (sheet.record(at), sheet.line_of(at)) else {
            continue;
        };
        let proposal = proposal_of(&ordered, line, pairing.kept_number(at));
        if let Some(proposals) = captures.get_mut(record.capture() as usize) {
            if let Some(mark) = proposals.get_mut(record.packet as usize) {
                *mark = proposal;
            }
        }
    }
    let groups = propose_groups(sheet, pairing, carrying, captures.as_mut_slice())?;
    let lanes = lanes_of(sheet.alloc, sheet)?;
    let Ordered {
        reasons,
        numbers: _,
    } = ordered;
    Ok(Proposed {
        begin: sheet.begin,
        lines: reasons,
        captures,
        causes: pairing.count(),
        groups,
        beyond: sheet.beyond,
        lanes,
    })
}

/// The number of clients with an arrival that stays in.
fn lanes_of(alloc: Global, sheet: &Sheet<'_>) -> Result<u64, AllocError> {
    let mut seen = vec![in alloc; false; sheet.pairs.len()]?;
    let mut lanes = 0u64;
    for at in 0..sheet.records.len() {
        let (Some(record), Some(pair)) = (sheet.record(at), sheet.pair_number(at)) else {
            continue;
        };
        if !sheet.is_kept(at) || !matches!(record.side, Side::Arrives) {
            continue;
        }
        if let Some(mark) = seen.get_mut(pair as usize) {
            if !*mark {
                lanes = lanes.saturating_add(1);
            }
            *mark = true;
        }
    }
    Ok(lanes)
}
