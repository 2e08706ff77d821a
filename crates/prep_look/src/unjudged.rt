//! What `cut` would exclude.

use audit_model::Side;
use prep_cut::{Reason, ReasonKind};
use prep_reasons::Sheet;
use std::alloc::{AllocError, Global};
use std::collections::BTreeMap;

/// What `cut` would exclude by one kind of reason.
#[derive(Clone, Copy, Debug)]
pub(crate) struct Unjudged {
    pub(crate) kind: ReasonKind,
    /// Lines of its list.
    pub(crate) lines: u64,
    pub(crate) arrived: u64,
    pub(crate) left: u64,
}

/// Datagrams by side.
#[derive(Clone, Copy)]
struct Sides {
    arrived: u64,
    left: u64,
}

/// Counts what is excluded by kind, in the order of the list.
pub(crate) fn count_unjudged(
    alloc: Global,
    sheet: &Sheet<'_>,
) -> Result<Vec<Unjudged>, AllocError> {
    let none = Sides {
        arrived: 0,
        left: 0,
    };
    let mut by_line = vec![in alloc; none; sheet.reasons().len()]?;
    for at in 0..sheet.len() {
        let (Some(line), Some(record)) = (sheet.line_of(at), sheet.record(at)) else {
            continue;
        };
        if let Some(sides) = by_line.get_mut(line as usize) {
            match record.side {
                Side::Arrives => sides.arrived = sides.arrived.saturating_add(1),
                Side::Leaves => sides.left = sides.left.saturating_add(1),
            }
        }
    }
    let by_kind = sum_kinds(alloc, sheet.reasons(), &by_line)?;
    let mut all = Vec::new(alloc);
    for one in by_kind.values() {
        all.push(*one)?;
    }
    Ok(all)
}

/// Adds up the lines of each kind. A line that excludes nothing isn't counted.
fn sum_kinds(
    alloc: Global,
    reasons: &[Reason],
    by_line: &[Sides],
) -> Result<BTreeMap<ReasonKind, Unjudged>, AllocError> {
    let mut by_kind: BTreeMap<ReasonKind, Unjudged> = BTreeMap::new(alloc);
    for (reason, sides) in reasons.iter().zip(by_line.iter()) {
        if sides.arrived > 0 || sides.left > 0 {
            let kind = reason.kind();
            let all = match by_kind.get(&kind) {
                Some(earlier) => earlier.plus(*sides),
                None => Unjudged {
                    kind,
                    lines: 1,
                    arrived: sides.arrived,
                    left: sides.left,
                },
            };
            by_kind.insert(kind, all)?;
        }
    }
    Ok(by_kind)
}

impl Unjudged {
    /// With one more line.
    fn plus(self, sides: Sides) -> Self {
        Unjudged {
            kind: self.kind,
            lines: self.lines.saturating_add(1),
            arrived: self.arrived.saturating_add(sides.arrived),
            left: self.left.saturating_add(sides.left),
        }
    }
}
