//! Requests and responses.

use crate::sheet::SECOND;
use audit_model::Side;
use audit_stun::Class;
use prep_records::{Record, Stun};

/// A response or a request of a record.
#[derive(Clone, Copy)]
pub struct Exchanged {
    pub record: Record,
    pub stun: Stun,
}

impl Exchanged {
    /// Whether it is a response that the server sent.
    pub fn is_answer(&self) -> bool {
        matches!(self.record.side, Side::Leaves)
            && matches!(self.stun.class, Class::Success | Class::Error)
    }

    /// Whether it is a success response of this method.
    pub fn succeeds(&self, method: u16) -> bool {
        matches!(self.stun.class, Class::Success) && self.stun.method == method
    }

    /// Whether it is an error response with this code.
    pub fn fails(&self, code: u16) -> bool {
        matches!(self.stun.class, Class::Error) && self.stun.code == Some(code)
    }

    /// The end of a lease of its lifetime, without the grace.
    pub fn lease_end(&self) -> u64 {
        let lifetime = u64::from(self.stun.lifetime.unwrap_or(0));
        self.record
            .stamp
            .saturating_add(lifetime.saturating_mul(SECOND))
    }
}
