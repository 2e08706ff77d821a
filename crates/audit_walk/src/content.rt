//! The content of the messages that the walk depends on.

use audit_content::{Success, ToClient};
use audit_model::Addr;
use audit_stun::numbers::method;

/// The error code Allocation Mismatch.
const ALLOCATION_MISMATCH: u16 = 437;

/// What a success or error response says of the allocation.
#[derive(Clone, Copy, Debug, PartialEq, Eq)]
pub enum Content {
    /// An Allocate success response with this relayed address: the allocation is new, or the
    /// request for it was repeated.
    Allocated(Addr),
    /// A success response to a Refresh with LIFETIME 0: the allocation is deleted (RFC 8656,
    /// section 8.2).
    Deleted,
    /// A channel is bound.
    Bound,
    /// There is no allocation: error 437 to any method except Allocate (RFC 8656, sections 5 and
    /// 19).
    NoAllocation,
    /// Something else, or another error.
    Other,
}

impl Content {
    /// Whether it makes or deletes an allocation.
    pub fn is_change(&self) -> bool {
        matches!(self, Content::Allocated(_) | Content::Deleted)
    }
}

/// The transaction id of a success or error response, and its content.
pub fn answer_of(sent: &ToClient<'_>) -> Option<([u8; 12], Content)> {
    match *sent {
        ToClient::Success { id, success, .. } => Some((id, success_content(success))),
        ToClient::Error { method, id, code } => Some((id, error_content(method, code))),
        ToClient::Data { .. } | ToClient::Channel { .. } => None,
    }
}

fn success_content(success: Success) -> Content {
    match success {
        Success::Allocated { relayed, .. } => Content::Allocated(relayed),
        Success::Deleted => Content::Deleted,
        Success::Bound => Content::Bound,
        Success::Refreshed { .. } | Success::Permitted | Success::Other => Content::Other,
    }
}

fn error_content(method: u16, code: Option<u16>) -> Content {
    if code == Some(ALLOCATION_MISMATCH) && method != method::ALLOCATE {
        Content::NoAllocation
    } else {
        Content::Other
    }
}
