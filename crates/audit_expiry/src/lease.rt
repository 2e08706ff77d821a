//! One lease, and when it is usable and gone.

ghost use Rattle.std.specs.Prelude.{◌≡◌, ◌↔◌, IsTrue};
ghost use Rattle.audit_model.specs.Window.{later};
ghost use Rattle.audit_expiry.specs.Lease.{IsUsable, IsGone, is_usable, is_gone, lasts};

/// The end of an allocation, a permission or a channel binding.
///
/// From just after its end until its end plus the grace a lease is both usable and gone: a server
/// may still use it, or may have deleted it.
#[derive(Clone, Copy, Debug, PartialEq, Eq)]
pub struct Lease {
    /// The last moment of the lease, in nanoseconds since 1970.
    pub until: u64,
}

impl Lease {
    /// The lease that begins at `from` and lasts this number of nanoseconds. Its end is at most the
    /// greatest moment.
    pub fn lasting(from: u64, nanoseconds: u64) -> Lease
        ensures { result.until ≡ later from nanoseconds }
    {
        Lease {
            until: from.saturating_add(nanoseconds),
        }
    }

    /// Whether a server may still use it at the moment: up to its end plus the grace, both
    /// included. The sum is at most the greatest moment.
    pub fn usable(self, moment: u64, grace: u64) -> bool
        ensures fact { IsTrue result ↔ IsUsable self.until moment grace }
        ensures value { result ≡ is_usable self.until moment grace }
    {
        moment <= self.until.saturating_add(grace)
    }

    /// Whether a server may have deleted it at the moment: after its end.
    pub fn gone(self, moment: u64) -> bool
        ensures fact { IsTrue result ↔ IsGone self.until moment }
        ensures value { result ≡ is_gone self.until moment }
    {
        moment > self.until
    }

    /// Whether it isn't past the grace at the moment: a server has to keep it, or may still use it.
    pub fn lasts(self, moment: u64, grace: u64) -> bool
        ensures { result ≡ lasts self.until moment grace }
    {
        !self.gone(moment) || self.usable(moment, grace)
    }
}
