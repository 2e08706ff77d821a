//! Responses and their requests.

use prep_reasons::Sheet;
use std::alloc::{AllocError, Global};

/// Requests that were answered by the interface at which they arrived.
#[derive(Clone, Copy, Debug)]
pub(crate) struct Answered {
    pub(crate) count: u64,
    /// The longest time that one took, in nanoseconds.
    pub(crate) longest: u64,
}

/// How many requests were answered, each once.
pub(crate) fn count_answered(alloc: Global, sheet: &Sheet<'_>) -> Result<Answered, AllocError> {
    let mut all = Answered {
        count: 0,
        longest: 0,
    };
    let mut is_answered = vec![in alloc; false; sheet.len()]?;
    for at in 0..sheet.len() {
        let (Some(place), Some((answer, request))) = (sheet.request_of(at), sheet.answered(at))
        else {
            continue;
        };
        let Some(mark) = is_answered.get_mut(place) else {
            continue;
        };
        if !*mark && answer.record.iface == request.record.iface {
            let delay = answer.record.stamp.saturating_sub(request.record.stamp);
            all = Answered {
                count: all.count.saturating_add(1),
                longest: all.longest.max(delay),
            };
        }
        *mark = true;
    }
    Ok(all)
}
