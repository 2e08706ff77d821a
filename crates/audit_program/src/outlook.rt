//! Whether another certificate may conform if one breaks a rule.

ghost use Rattle.std.specs.Prelude.{IfOk};
ghost use Rattle.audit_files.specs.Judged.{Judges};
ghost use Rattle.audit_keys.specs.KeyFor.{key_for};
ghost use Rattle.audit_sightings.specs.Intake.{taken};
ghost use Rattle.audit_program.specs.Deciding.{IsOutlook};

use audit_faults::fault_among;
use audit_files::Files;
use audit_model::{Breach, CertLane, Certificate, Event, Rule, SightId, Verdict};
use std::alloc::{AllocError, Global};

/// How many departures after a breach are tried: the first, the second, the fourth, and so on.
const LOOKED_AT: usize = 6;

/// What the verdict by a certificate implies for all certificates.
#[derive(Clone, Copy, Debug, PartialEq, Eq)]
pub enum Outlook {
    /// It conforms, or no order of the captures explains the departure at which it breaks a rule,
    /// so that none conforms.
    Decided,
    /// No order explains a departure soon after that one, so that none conforms either.
    DecidedAfter,
    /// Another certificate may conform.
    Open,
}

/// The departure of an act, or of an event at which one leaves.
fn departure_of(event: &Event) -> Option<SightId> {
    match event {
        Event::Act { gives, .. } => Some(*gives),
        Event::Out { sight, .. } => Some(*sight),
        Event::In { .. } => None,
    }
}

/// The lane of a certificate in whose events a rule is broken.
fn lane_of<'a>(certificate: &'a Certificate, breach: &Breach) -> Option<&'a CertLane> {
    if breach.phase != 2 {
        return None;
    }
    certificate.lanes.as_slice().get(breach.at.lane as usize)
}

/// The departure at which a certificate breaks a rule: that of the event, or the one that isn't
/// placed.
fn departure_at(certificate: &Certificate, breach: &Breach) -> Option<SightId> {
    if breach.phase == 1 && breach.rule == Rule::Unplaced {
        return Some(breach.sight);
    }
    let lane = lane_of(certificate, breach)?;
    departure_of(lane.events.as_slice().get(breach.at.place as usize)?)
}

/// Adds some departures that the lane's acts send after a breach by an expired lease.
fn add_after(
    certificate: &Certificate,
    breach: &Breach,
    near: &mut Vec<SightId>,
) -> Result<(), AllocError> {
    if !matches!(
        breach.rule,
        Rule::AllocationOver | Rule::PermissionOver | Rule::ChannelOver
    ) {
        return Ok(());
    }
    let Some(lane) = lane_of(certificate, breach) else {
        return Ok(());
    };
    let after = (breach.at.place as usize).saturating_add(1);
    let mut acts = 0usize;
    let mut next = 1usize;
    for event in lane.events.as_slice().get(after..).unwrap_or(&[]) {
        if let Event::Act { gives, .. } = event {
            acts = acts.saturating_add(1);
            if acts >= next {
                near.push(*gives)?;
                next = next.saturating_mul(2);
            }
            if near.len() > LOOKED_AT {
                return Ok(());
            }
        }
    }
    Ok(())
}

/// What the breach of a certificate implies for all certificates.
fn outlook_of(
    alloc: Global,
    files: &Files,
    certificate: &Certificate,
    breach: &Breach,
) -> Result<Outlook, AllocError>
    ensures { IfOk result (λ outlook. IsOutlook (taken files.now.intake) (key_for files.now.users) certificate.now outlook) }
{
    let Some(departure) = departure_at(certificate, breach) else {
        return Ok(Outlook::Open);
    };
    let mut near = Vec::new(alloc);
    near.push(departure)?;
    add_after(certificate, breach, &mut near)?;
    match fault_among(alloc, &files.intake, &files.users, &near)? {
        None => Ok(Outlook::Open),
        Some(sight) => {
            if sight == departure {
                Ok(Outlook::Decided)
            } else {
                Ok(Outlook::DecidedAfter)
            }
        }
    }
}

/// What the verdict by a certificate implies for all certificates. It takes n log n time in the
/// sightings.
pub fn outlook_by(
    alloc: Global,
    files: &Files,
    certificate: &Certificate,
    verdict: &Verdict,
) -> Result<Outlook, AllocError>
    requires { Judges (taken files.now.intake) (key_for files.now.users) certificate.now verdict.now }
    ensures { IfOk result (λ outlook. IsOutlook (taken files.now.intake) (key_for files.now.users) certificate.now outlook) }
{
    match verdict {
        Verdict::Conforming { .. } => Ok(Outlook::Decided),
        Verdict::NotShown(breach) => outlook_of(alloc, files, certificate, breach),
    }
}
