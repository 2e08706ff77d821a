//! The moments at which a walk may place what was captured.

ghost use Rattle.std.specs.Prelude.{◌≤◌, ◌<◌, ◌+◌, ◌-◌, ◌/◌};

use audit_model::{Policy, Sighting};

/// The part of each datagram's stamp window that a walk uses: a fraction of it, in the middle.
///
/// A moment in a part is in the window. So an order that uses a part is also one of the whole
/// window.
#[derive(Clone, Copy, Debug, PartialEq, Eq)]
pub enum Windows {
    Whole,
    Tenth,
    Hundredth,
    Thousandth,
    TenThousandth,
    HundredThousandth,
}

impl Windows {
    /// The parts, each a tenth of the previous one.
    pub const PARTS: [Windows; 5] = [
        Windows::Tenth,
        Windows::Hundredth,
        Windows::Thousandth,
        Windows::TenThousandth,
        Windows::HundredThousandth,
    ];

    /// The first moment at which a datagram may be placed, in nanoseconds since 1970: not before
    /// its window, nor after the middle of the window.
    pub fn first(self, sighting: &Sighting) -> u64
        ensures inside { sighting.now.lo ≤ result }
        ensures middle { result ≤ sighting.now.lo + (sighting.now.hi - sighting.now.lo) / 2 }
    {
        sighting.lo.saturating_add(self.left_out(sighting))
    }

    /// The last moment at which a datagram may be placed, in nanoseconds since 1970: not after its
    /// window, nor before the middle of the window.
    pub fn last(self, sighting: &Sighting) -> u64
        ensures inside { result ≤ sighting.now.hi }
        ensures middle { sighting.now.lo ≤ sighting.now.hi
            → sighting.now.lo + (sighting.now.hi - sighting.now.lo) / 2 ≤ result }
    {
        sighting.hi.saturating_sub(self.left_out(sighting))
    }

    /// The width of the widest window that is used, in nanoseconds.
    pub fn widest(self, policy: &Policy) -> u64 {
        let own = policy.skews.as_slice().iter().map(|own| own.skew);
        let skew = own.fold(policy.skew, |widest, skew| widest.max(skew));
        skew.saturating_mul(2) / self.parts()
    }

    /// The part of a window that isn't used at either end.
    fn left_out(self, sighting: &Sighting) -> u64
        ensures { result ≤ (sighting.now.hi - sighting.now.lo) / 2 }
    {
        // Most calls are for whole windows, which need no division.
        if self == Windows::Whole {
            return 0;
        }
        let half = sighting.hi.saturating_sub(sighting.lo) / 2;
        half.saturating_sub(half / self.parts())
    }

    /// The number of parts of a window.
    fn parts(self) -> u64
        ensures { 0 < result }
    {
        match self {
            Windows::Whole => 1,
            Windows::Tenth => 10,
            Windows::Hundredth => 100,
            Windows::Thousandth => 1_000,
            Windows::TenThousandth => 10_000,
            Windows::HundredThousandth => 100_000,
        }
    }
}
