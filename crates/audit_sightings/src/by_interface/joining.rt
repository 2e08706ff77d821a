//! Joins the sightings of some files with those of later files.

ghost use Rattle.std.specs.Prelude.{◌≡◌, ◌<◌, ◌≤◌, ◌*◌, ℕ, None, IfOk, MatchOption, length, slice_index_or};
ghost use Rattle.std.specs.Bool.{OnTrue};
ghost use Rattle.audit_sightings.specs.ByInterface.{count_of};
ghost use Rattle.audit_sightings.specs.Joins.{Joins};

use super::{ByInterface, INTERFACES_OF_FILE, MAX_SIGHTINGS, add_interfaces};
use crate::fault::IntakeFaultKind;
use crate::intake::MAX_FILES;
use audit_model::{Listed, Sighting};
use std::alloc::{AllocError, Global};

impl ByInterface {
    ghost use Rattle.std.specs.Prelude.{◌≡◌, ◌⊎◌, ◌<◌, ◌≤◌, ◌+◌, ◌*◌, IfOk, IfErr};
    ghost use Rattle.audit_sightings.specs.ByInterface.{count_of};
    ghost use Rattle.audit_sightings.specs.Joins.{Joins};

    /// The sightings of the files below this number, and after them another intake's of this file
    /// and those after it. All other sightings of either are dropped. It takes no time for each
    /// sighting.
    pub fn joined(self, other: ByInterface, file: u32) -> Result<ByInterface, IntakeFaultKind>
        requires { file ≤ 16 }
        ensures ok { IfOk result (Joins (64 * file) self other) }
        ensures refused { IfErr result (λ fault. (fault ≡ IntakeFaultKind.Memory)
            ⊎ ((fault ≡ IntakeFaultKind.Limit) × (MAX_SIGHTINGS < count_of self + count_of other))) }
    {
        let first = (INTERFACES_OF_FILE * file) as usize;
        let interfaces = join(self.alloc, self.interfaces, other.interfaces, first)?;
        let Some(count) = count(&interfaces) else {
            return Err(IntakeFaultKind::Limit);
        };
        Ok(ByInterface {
            interfaces,
            count,
            newest: newest_of_both(&self.newest, &other.newest, file as usize),
            alloc: self.alloc,
        })
    }
}

/// The interfaces below the first, and another's from there on.
fn join(
    alloc: Global,
    interfaces: Vec<Listed<Sighting>>,
    others: Vec<Listed<Sighting>>,
    first: usize,
) -> Result<Vec<Listed<Sighting>>, AllocError>
    ensures { IfOk result (λ joined. Joins first interfaces.items others.items joined.items) }
{
    let mut joined = interfaces;
    let mut others = others;
    joined.truncate(first);
    if others.len() <= first {
        return Ok(joined);
    }
    let mut behind = others.split_off(first)?;
    if first > 0 {
        add_interfaces(alloc, &mut joined, first - 1)?;
    }
    joined.append(&mut behind)?;
    Ok(joined)
}

/// The number of sightings, or None if they are too many.
fn count(interfaces: &[Listed<Sighting>]) -> Option<u32>
    ensures { MatchOption result (MAX_SIGHTINGS < count_of interfaces.now) (λ count. (count ≡ count_of interfaces.now) × (count ≤ MAX_SIGHTINGS)) }
{
    let mut count = 0u32;
    'interfaces: for interface in interfaces {
        let sightings = interface.len();
        if sightings > (MAX_SIGHTINGS - count) as usize {
            return None;
        }
        count += sightings as u32;
    }
    Some(count)
}

/// The first's moments for the files below this number, and the other's from it on.
fn newest_of_both(
    one: &[Option<u64>; MAX_FILES],
    other: &[Option<u64>; MAX_FILES],
    file: usize,
) -> [Option<u64>; MAX_FILES]
    ensures below { (n : ℕ) → n < file → slice_index_or result n None ≡ slice_index_or one.now n None }
    ensures behind { (n : ℕ) → file ≤ n → slice_index_or result n None ≡ slice_index_or other.now n None }
{
    let mut newest = *other;
    'files: for n in 0..file.min(MAX_FILES) {
        newest[n] = one[n];
    }
    newest
}
