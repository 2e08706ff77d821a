//! A relayed address that was granted to one client after another.

ghost use Rattle.std.specs.Prelude.{◌≡◌};

use audit_seen::{LaneNumber, SeenNumber};

/// Two clients that had one relayed address, one after the other.
#[derive(Clone, Copy, Debug)]
pub struct Handover {
    from: LaneNumber,
    maker: SeenNumber,
    ender: Option<SeenNumber>,
    next: SeenNumber,
}

impl Handover {
    /// A handover: the lane of the first allocation, the responses that granted it and that deleted
    /// it, if one did, and the response that granted the next allocation.
    pub fn new(
        from: LaneNumber,
        maker: SeenNumber,
        ender: Option<SeenNumber>,
        next: SeenNumber,
    ) -> Handover {
        Handover {
            from,
            maker,
            ender,
            next,
        }
    }

    /// The lane of the client that had the address first.
    pub fn from(&self) -> LaneNumber
        ensures { result ≡ self.now.from }
    {
        self.from
    }

    /// The response that granted the first allocation.
    pub fn maker(&self) -> SeenNumber
        ensures { result ≡ self.now.maker }
    {
        self.maker
    }

    /// The response that deleted it, if one did.
    pub fn ender(&self) -> Option<SeenNumber>
        ensures { result ≡ self.now.ender }
    {
        self.ender
    }

    /// The response that granted the second allocation.
    pub fn next(&self) -> SeenNumber
        ensures { result ≡ self.now.next }
    {
        self.next
    }
}
