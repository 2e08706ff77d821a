//! Allocations that were lost before their end, as by a restart.

use audit_model::Side;
use audit_stun::numbers::method;
use prep_reasons::{Exchanged, Sheet};
use std::alloc::{AllocError, Global};

/// The responses that show lost allocations. Moments are nanoseconds since 1970.
#[derive(Clone, Copy, Debug)]
pub struct Losses {
    pub count: u64,
    /// The stamp of the first request whose response shows a loss.
    pub first: u64,
    /// The longest time before `first` in which nothing left.
    pub quiet_from: u64,
    pub quiet_to: u64,
}

/// The allocation that a client has.
#[derive(Clone, Copy)]
struct Lease {
    end: u64,
    /// The transaction id of the Allocate that made it.
    tid: [u8; 12],
}

/// The losses that responses show, if any.
pub(crate) fn find_losses(alloc: Global, sheet: &Sheet<'_>) -> Result<Option<Losses>, AllocError> {
    let mut leases: Vec<Option<Lease>> = vec![in alloc; None; sheet.pair_count() as usize]?;
    let mut count = 0u64;
    let mut first: Option<u64> = None;
    for at in 0..sheet.len() {
        let (Some(pair), Some((answer, request))) = (sheet.pair_number(at), sheet.answered(at))
        else {
            continue;
        };
        let Some(lease) = leases.get_mut(pair as usize) else {
            continue;
        };
        if is_lost(*lease, &answer) {
            count = count.saturating_add(1);
            first = match first {
                Some(first) => Some(first),
                None => Some(request.record.stamp),
            };
        }
        *lease = lease_after(*lease, &answer);
    }
    Ok(match first {
        Some(first) => Some(before(sheet, count, first)),
        None => None,
    })
}

/// Whether a response shows that the allocation of its client was lost.
fn is_lost(lease: Option<Lease>, answer: &Exchanged) -> bool {
    let Some(lease) = lease else {
        return false;
    };
    if answer.record.stamp >= lease.end {
        return false;
    }
    let answered_method = answer.stun.method;
    let needs = answered_method == method::REFRESH
        || answered_method == method::CREATE_PERMISSION
        || answered_method == method::CHANNEL_BIND;
    let is_new = answer.succeeds(method::ALLOCATE) && answer.stun.tid != lease.tid;
    is_new || (needs && answer.fails(437))
}

/// The allocation after a response.
fn lease_after(lease: Option<Lease>, answer: &Exchanged) -> Option<Lease> {
    let end = answer.lease_end();
    if answer.succeeds(method::ALLOCATE) {
        let tid = answer.stun.tid;
        return Some(Lease { end, tid });
    }
    match lease {
        Some(lease) if answer.succeeds(method::REFRESH) => Some(Lease { end, ..lease }),
        lease => lease,
    }
}

/// With the longest time before the first request in which nothing left.
fn before(sheet: &Sheet<'_>, count: u64, first: u64) -> Losses {
    let mut found = Losses {
        count,
        first,
        quiet_from: first,
        quiet_to: first,
    };
    let mut last: Option<u64> = None;
    for at in 0..sheet.len() {
        let Some(record) = sheet.record(at) else {
            continue;
        };
        if matches!(record.side, Side::Leaves) && record.stamp < first {
            found = found.with_quiet(last, record.stamp);
            last = Some(record.stamp);
        }
    }
    found.with_quiet(last, first)
}

impl Losses {
    /// With the time from a departure, if there was one, to a moment, if it is the longest.
    fn with_quiet(self, from: Option<u64>, to: u64) -> Self {
        let Some(from) = from else {
            return self;
        };
        let longest = self.quiet_to.saturating_sub(self.quiet_from);
        if to.saturating_sub(from) > longest {
            Losses {
                quiet_from: from,
                quiet_to: to,
                ..self
            }
        } else {
            self
        }
    }
}
