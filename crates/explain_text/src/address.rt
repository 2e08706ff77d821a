//! IPv4 addresses without a port.

use std::fmt;

/// As `203.0.113.9`.
#[derive(Clone, Copy, Debug)]
pub struct Ip {
    /// The four bytes of the address, the first one highest.
    pub ip: u32,
}

impl fmt::Display for Ip {
    fn fmt<W: fmt::Write>(&self, f: &mut fmt::Formatter<W>) -> fmt::Result {
        let [a, b, c, d] = self.ip.to_be_bytes();
        write!(f, "{a}.{b}.{c}.{d}")
    }
}
