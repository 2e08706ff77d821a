//! Lines about a datagram that is misplaced in the order: S1 to S8.

use crate::case::Case;
use crate::causes::cause_of_departure;
use crate::line::Story;
use crate::nearest::add_nearest;
use crate::order::add_owner;
use audit_model::{Breach, Rule, Side, SightId, Sighting};
use explain_clients::Owners;
use explain_text::{Seconds, cause};
use std::alloc::AllocError;

/// The nanoseconds of a microsecond.
const MICROSECOND: u64 = 1_000;

/// Adds by how much a moment differs from its stamp (S4).
fn add_window(
    case: Case<'_>,
    breach: &Breach,
    sighting: &Sighting,
    story: &mut Story,
) -> Result<(), AllocError> {
    let alloc = story.alloc();
    let off = breach.at.key.moment.abs_diff(sighting.stamp) / MICROSECOND;
    let skew = case.intake.policy().skew_for(breach.sight.iface) / MICROSECOND;
    let way = if breach.at.key.moment < sighting.stamp {
        "before"
    } else {
        "behind"
    };
    story.say(format!(in alloc;
        "  its moment is {off} microseconds {way} its stamp; the skew of this interface is {skew}"
    )?)?;
    if let Some(narrower) = case.certificate.skew_of(breach.sight.iface) {
        story.say(format!(in alloc; "  and in the certificate {narrower}")?)?;
    }
    Ok(())
}

/// The sighting before one on its interface.
fn before(sight: SightId) -> Option<SightId> {
    Some(SightId {
        iface: sight.iface,
        index: sight.index.checked_sub(1)?,
    })
}

/// Adds the stamps of a datagram and of the one before it on its interface.
fn add_neighbour(case: Case<'_>, sighting: &Sighting, story: &mut Story) -> Result<(), AllocError> {
    let alloc = story.alloc();
    let Some(neighbour) = before(sighting.id) else {
        return Ok(());
    };
    let Some(earlier) = case.intake.sighting(neighbour) else {
        return Ok(());
    };
    story.put("before it on its interface:")?;
    story.show(neighbour)?;
    if sighting.stamp < earlier.stamp {
        let back = Seconds {
            nanoseconds: earlier.stamp - sighting.stamp,
        };
        story.say(format!(in alloc;
            "  its stamp is {back} behind: the clock was set back, or the capture was reordered"
        )?)?;
    }
    Ok(())
}

/// Adds lines about a datagram that isn't placed (S1), and returns its usual causes.
fn add_unplaced(
    case: Case<'_>,
    sighting: &Sighting,
    story: &mut Story,
) -> Result<&'static str, AllocError> {
    if sighting.side == Side::Arrives {
        story.put("  it arrives at the server, and the certificate neither places nor drops it")?;
        return Ok(cause(Rule::Unplaced));
    }
    if sighting.id.index == 0 {
        story.put("  it is the first datagram of its interface: the capture may have begun late")?;
    }
    let owners = Owners::of(story.alloc(), case.intake)?;
    add_owner(case, sighting, story)?;
    add_nearest(case, &owners, sighting, story)?;
    Ok(cause_of_departure(case, &owners, sighting, Rule::Unplaced))
}

/// Adds the place of the breach in the certificate.
fn add_place(breach: &Breach, story: &mut Story) -> Result<(), AllocError> {
    let alloc = story.alloc();
    let lane = breach.at.lane;
    let place = breach.at.place;
    story.say(format!(in alloc; "  in the certificate: lane {lane}, event {place}, both from 0")?)
}

/// Adds a breach of placement, and returns its usual causes.
pub fn add_placement(
    case: Case<'_>,
    breach: &Breach,
    story: &mut Story,
) -> Result<&'static str, AllocError> {
    let Some(sighting) = case.intake.sighting(breach.sight) else {
        story.put("  the captures have no such datagram")?;
        return Ok(cause(breach.rule));
    };
    match breach.rule {
        Rule::Unplaced => return add_unplaced(case, sighting, story),
        Rule::OutOfWindow => {
            add_window(case, breach, sighting, story)?;
            add_neighbour(case, sighting, story)?;
        }
        Rule::InterfaceOrder => add_neighbour(case, sighting, story)?,
        _ => add_place(breach, story)?,
    }
    Ok(cause(breach.rule))
}
