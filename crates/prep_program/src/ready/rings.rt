//! Which captures are files of one ring.

use crate::ring_name::RingName;
use std::alloc::{AllocError, Global};
use std::collections::BTreeMap;

/// The captures that are joined to one: the files of a ring, or a single one.
#[derive(Drop)]
pub struct Ring<'a> {
    /// The file that was named first.
    first: &'a str,
    members: Vec<Member<'a>>,
}

/// A file, with its number in the ring.
#[derive(Clone, Copy)]
struct Member<'a> {
    number: u32,
    name: &'a str,
}

impl<'a> Ring<'a> {
    /// A ring with one file.
    fn new(alloc: Global, number: u32, name: &'a str) -> Result<Self, AllocError> {
        let mut members = Vec::new(alloc);
        members.push(Member { number, name })?;
        Ok(Ring {
            first: name,
            members,
        })
    }

    /// The file that was named first.
    pub fn first(&self) -> &'a str {
        self.first
    }

    /// Whether it is one file.
    pub fn is_single(&self) -> bool {
        self.members.len() == 1
    }

    /// Its files in the order of the numbers.
    pub fn names(&self, alloc: Global) -> Result<Vec<&'a str>, AllocError> {
        let mut names = Vec::new(alloc);
        for member in &self.members {
            names.push(member.name)?;
        }
        Ok(names)
    }
}

/// Groups the captures by rings, in the order of each ring's first file. The cost is the number of
/// captures times its logarithm.
pub fn rings_of<'a>(alloc: Global, names: &[&'a str]) -> Result<Vec<Ring<'a>>, AllocError> {
    let mut rings: Vec<Ring<'a>> = Vec::new(alloc);
    let mut places: BTreeMap<&'a [u8], usize> = BTreeMap::new(alloc);
    for name in names {
        let name: &'a str = *name;
        let Some(ring) = RingName::of(name.as_bytes()) else {
            rings.push(Ring::new(alloc, 0, name)?)?;
            continue;
        };
        let number = ring.number;
        let place = places.get(&ring.stem).copied();
        match place.and_then(|place| rings.get_mut(place)) {
            Some(earlier) => earlier.members.push(Member { number, name })?,
            None => {
                places.insert(ring.stem, rings.len())?;
                rings.push(Ring::new(alloc, number, name)?)?;
            }
        }
    }
    for ring in &mut rings {
        ring.members.sort_by_key(|member| member.number)?;
    }
    Ok(rings)
}

/// The name of a ring's joined capture: the part of the files' names before the numbers.
pub fn joined_name(alloc: Global, part: &str) -> Result<String, AllocError> {
    let stem = match RingName::of(part.as_bytes()) {
        Some(ring) => part.get(..ring.stem.len()).unwrap_or(part),
        None => part,
    };
    let stem = if stem.is_empty() { "ring" } else { stem };
    format!(in alloc; "{stem}.pcapng")
}
