//! Shown faults, with a note about each for the reader.

ghost use Rattle.std.specs.Prelude.{◌≡◌, IfOk, map};

use crate::noting::{Notes, note_of};
use audit_faults::ShownFault;
use std::alloc::{AllocError, Global};

/// A fault as it is reported.
#[derive(Drop)]
pub struct Reported {
    pub shown: ShownFault,
    /// Whether its data was for another client: then the captures didn't begin too late for it.
    pub is_misdelivered: bool,
    /// Lines after those of the fault, on which no guarantee depends.
    pub note: String,
}

/// A fault with its note.
fn reported_of(alloc: Global, notes: &Notes<'_>, shown: ShownFault) -> Result<Reported, AllocError>
    ensures { IfOk result (λ one. one.shown ≡ shown) }
{
    let (is_misdelivered, note) = note_of(alloc, notes, shown)?;
    Ok(Reported {
        shown,
        is_misdelivered,
        note,
    })
}

/// Faults with their notes, in the same order.
pub fn with_notes(
    alloc: Global,
    notes: &Notes<'_>,
    faults: &[ShownFault],
) -> Result<Vec<Reported>, AllocError>
    ensures { IfOk result (λ all. map (λ one. one.shown) all.items ≡ faults.now) }
{
    let mut all = Vec::new(alloc);
    'faults: for shown in faults {
        all.push(reported_of(alloc, notes, *shown)?)?;
    }
    Ok(all)
}
