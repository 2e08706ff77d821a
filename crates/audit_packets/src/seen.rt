//! The content of a frame.

ghost use Rattle.std.specs.Prelude.{◌≡◌};

use audit_model::Addr;

/// The content of a captured frame.
#[derive(Clone, Copy, Debug, PartialEq, Eq)]
pub enum Seen<'a> {
    /// A whole UDP datagram over IPv4.
    Udp {
        from: Addr,
        to: Addr,
        payload: &'a [u8],
    },
    /// No UDP over IPv4, or a datagram whose lengths contradict one another.
    Other,
    /// A fragment of a UDP datagram over IPv4, with its addresses.
    Fragment {
        from: u32,
        to: u32,
    },
    /// A frame of which too little was captured to find more, with its addresses if they were
    /// captured.
    Cut {
        ips: Option<(u32, u32)>,
    },
}

impl<'a> Seen<'a> {
    ghost use Rattle.audit_packets.specs.View.{view};
    ghost use Rattle.audit_packets.specs.Reading.{lacking};

    /// The result for a frame that ends too early.
    pub(crate) fn lacking(is_cut: bool, ips: Option<(u32, u32)>) -> Self
        ensures { view result ≡ lacking is_cut ips }
    {
        if is_cut {
            Seen::Cut { ips }
        } else {
            Seen::Other
        }
    }
}
