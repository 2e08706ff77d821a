//! Lines about two clients that have the same relayed address: R22.

use crate::case::Lanes;
use crate::line::Story;
use audit_lane::all_tenancies;
use audit_model::{Breach, Tenancy};
use std::alloc::AllocError;

/// The tenancy that an act began.
fn born_at(tenancies: &[Tenancy], breach: &Breach) -> Option<Tenancy> {
    tenancies
        .iter()
        .find(|tenancy| tenancy.born == breach.at)
        .copied()
}

/// Adds both clients of an address.
pub fn add_clash(lanes: &Lanes<'_>, breach: &Breach, story: &mut Story) -> Result<(), AllocError> {
    let alloc = story.alloc();
    let tenancies = all_tenancies(alloc, lanes.findings.as_slice())?;
    let Some(new) = born_at(tenancies.as_slice(), breach) else {
        return Ok(());
    };
    let relayed = new.relayed;
    story.say(format!(in alloc; "  {relayed} was granted before:")?)?;
    for held in &tenancies {
        if held.relayed == relayed
            && held.born.lane != new.born.lane
            && held.born.key < new.born.key
            && new.born.key.moment <= held.last
        {
            story.show(held.sight)?;
        }
    }
    Ok(())
}
