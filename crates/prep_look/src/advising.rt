//! Makes the advice from the findings.

use crate::advice::{Advice, Ended, Relaying};
use crate::crossings::{Crossings, find_crossings};
use crate::ends::find_ended;
use crate::losses::{Losses, find_losses};
use crate::relaying::find_relaying;
use crate::responses::{Answered, count_answered};
use crate::survey::{Closed, Survey};
use crate::unjudged::{Unjudged, count_unjudged};
use crate::unknown_addresses::count_unknown;
use audit_model::{Policy, Side};
use prep_cut::ReasonKind;
use prep_reasons::Sheet;
use std::alloc::{AllocError, Global};

/// The findings about the service.
#[derive(Drop)]
pub(crate) struct Findings {
    pub(crate) answered: Answered,
    pub(crate) crossings: Crossings,
    pub(crate) unjudged: Vec<Unjudged>,
    losses: Option<Losses>,
    relaying: Option<Relaying>,
    ended: Option<Ended>,
    /// The number of relayed addresses without a client, up to the end of the interface that ended.
    unknown_addresses: u64,
    /// The stamp of the last datagram that left a listen address.
    last_response: u64,
}

/// Clocks are assumed to differ if at least this number of departures come before their arrivals.
const LEAST_CROSSINGS: u64 = 3;

/// The advice about captures, in the order of the page. The cost is the number of records times its
/// logarithm.
pub fn advice_of(
    alloc: Global,
    survey: &Survey,
    policy: &Policy,
    sheet: &Sheet<'_>,
) -> Result<Vec<Advice>, AllocError> {
    let found = find_all(alloc, survey, policy, sheet)?;
    advise(alloc, survey, policy, &found)
}

/// Finds what the records show.
pub(crate) fn find_all(
    alloc: Global,
    survey: &Survey,
    policy: &Policy,
    sheet: &Sheet<'_>,
) -> Result<Findings, AllocError> {
    let crossings = find_crossings(alloc, sheet)?;
    let ended = find_ended(alloc, &survey.interfaces, &crossings.causeless, sheet)?;
    let until = match ended {
        Some(ended) => ended.end,
        None => u64::MAX,
    };
    Ok(Findings {
        answered: count_answered(alloc, sheet)?,
        crossings,
        unjudged: count_unjudged(alloc, sheet)?,
        losses: find_losses(alloc, sheet)?,
        relaying: find_relaying(alloc, sheet)?,
        ended,
        unknown_addresses: count_unknown(alloc, sheet, until)?,
        last_response: last_response(policy, sheet),
    })
}

/// The stamp of the last datagram that left a listen address; 0 if none did.
fn last_response(policy: &Policy, sheet: &Sheet<'_>) -> u64 {
    let mut last = 0u64;
    for at in 0..sheet.len() {
        if let Some(record) = sheet.record(at) {
            if matches!(record.side, Side::Leaves) && policy.listens(record.from) {
                last = last.max(record.stamp);
            }
        }
    }
    last
}

/// Makes the advice, in the order of the page.
pub(crate) fn advise(
    alloc: Global,
    survey: &Survey,
    policy: &Policy,
    found: &Findings,
) -> Result<Vec<Advice>, AllocError> {
    let mut all = Vec::new(alloc);
    of_interfaces(survey, policy, &mut all)?;
    of_frames(survey, policy, &mut all)?;
    for alias in &survey.aliases {
        if alias.is_likely() {
            all.push(Advice::Translate(*alias))?;
        }
    }
    of_unjudged(found, survey.fragments_of(policy) > 0, &mut all)?;
    of_clocks(policy, found, &mut all)?;
    let longest = longest_delay(found);
    if longest > policy.hold {
        all.push(Advice::Hold { longest })?;
    }
    if let Some(losses) = found.losses {
        all.push(Advice::Lost(losses))?;
    }
    if let Some(closed) = survey.closed_of(policy) {
        all.push(of_closed(closed, found))?;
    }
    if let Some(ended) = found.ended {
        all.push(Advice::Ended(ended))?;
    }
    Ok(all)
}

fn of_interfaces(
    survey: &Survey,
    policy: &Policy,
    all: &mut Vec<Advice>,
) -> Result<(), AllocError> {
    for one in &survey.interfaces {
        let interface = one.number;
        let most = one.stamps.most;
        if one.statistics == 0 {
            all.push(Advice::NoStatistics { interface })?;
        }
        if most > policy.skew_for(interface).saturating_mul(2) {
            all.push(Advice::StepsBack { interface, most })?;
        }
    }
    Ok(())
}

fn of_frames(survey: &Survey, policy: &Policy, all: &mut Vec<Advice>) -> Result<(), AllocError> {
    let fragments = survey.fragments_of(policy);
    if fragments > 0 {
        all.push(Advice::Fragments(fragments))?;
    }
    let cuts = survey.cuts_of(policy);
    if cuts > 0 {
        all.push(Advice::Truncated(cuts))?;
    }
    let frames = survey.long;
    let channel_data = survey.merged_of(policy);
    if frames > 0 || channel_data > 0 {
        all.push(Advice::Merged {
            frames,
            channel_data,
        })?;
    }
    Ok(())
}

/// The kinds for which `cut` is advised, in the order of the page. The kinds that belong to clients
/// from before have no lines of their own.
const ADVISED: [ReasonKind; 7] = [
    ReasonKind::Client,
    ReasonKind::Address,
    ReasonKind::Released,
    ReasonKind::AddressTold,
    ReasonKind::Dtls,
    ReasonKind::Inner,
    ReasonKind::Inside,
];

fn of_unjudged(
    found: &Findings,
    has_fragments: bool,
    all: &mut Vec<Advice>,
) -> Result<(), AllocError> {
    for kind in ADVISED {
        for one in &found.unjudged {
            if one.kind == kind {
                of_kind(found, one, has_fragments, all)?;
            }
        }
    }
    Ok(())
}

/// Adds the advice of one kind. Fragments may show who has an address that nobody is seen to have.
fn of_kind(
    found: &Findings,
    one: &Unjudged,
    has_fragments: bool,
    all: &mut Vec<Advice>,
) -> Result<(), AllocError> {
    let kind = one.kind;
    let lines = match kind {
        ReasonKind::Address if has_fragments => 0,
        ReasonKind::Address => found.unknown_addresses,
        _ => one.lines,
    };
    match (kind, found.relaying) {
        (ReasonKind::Released, Some(relaying)) => all.push(Advice::Released(relaying))?,
        _ if lines > 0 => all.push(Advice::Exclude { kind, lines })?,
        _ => {}
    }
    Ok(())
}

fn of_closed(closed: Closed, found: &Findings) -> Advice {
    if found.last_response > closed.last {
        Advice::Restarted(closed)
    } else {
        Advice::Stopped(closed)
    }
}

fn of_clocks(policy: &Policy, found: &Findings, all: &mut Vec<Advice>) -> Result<(), AllocError> {
    for (interfaces, crossing) in found.crossings.between.iter() {
        let (arrival, departure) = *interfaces;
        if crossing.least >= 0 || crossing.count < LEAST_CROSSINGS {
            continue;
        }
        let by = crossing.least.unsigned_abs();
        let first = policy.skew_for(u32::from(arrival));
        let second = policy.skew_for(u32::from(departure));
        if by <= first.saturating_add(second) {
            continue;
        }
        let right = policy.skew_for(u32::from(arrival.min(departure)));
        let skew = by.saturating_sub(right).saturating_add(999) / 1_000;
        all.push(Advice::Clocks {
            arrival,
            departure,
            by,
            skew: skew.saturating_add(100),
        })?;
    }
    Ok(())
}

/// The longest time that the server takes, in nanoseconds.
fn longest_delay(found: &Findings) -> u64 {
    let mut longest = found.answered.longest;
    for crossing in found.crossings.between.values() {
        if crossing.longest > 0 {
            longest = longest.max(crossing.longest.unsigned_abs());
        }
    }
    longest
}
