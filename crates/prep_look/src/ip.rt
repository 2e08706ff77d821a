//! An IPv4 address without a port.

use std::fmt;

/// An IPv4 address without a port.
#[derive(Clone, Copy, Drop)]
pub(crate) struct Ip(pub(crate) u32);

impl fmt::Display for Ip {
    ghost use Rattle.std.specs.Prelude.{Some};
    ghost use Rattle.prep_look.specs.PolicyLines.{ip_text};

    ghost output = { λ ip. Some (ip_text ip.0) };

    fn fmt<W: fmt::Write>(&self, f: &mut fmt::Formatter<W>) -> fmt::Result {
        let [a, b, c, d] = self.0.to_be_bytes();
        write!(f, "{a}.{b}.{c}.{d}")
    }
}
