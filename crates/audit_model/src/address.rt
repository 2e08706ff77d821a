//! IPv4 transport addresses, and their spelling in a text.

ghost use Rattle.std.specs.Prelude.{◌≡◌};
ghost use Rattle.audit_text.specs.Token.{number_of};
ghost use Rattle.audit_model.specs.AddressText.{ip_of};

use audit_text::{TokenFault, both, halves, number};
use std::fmt;

/// An IPv4 address and a UDP port: a transport address of RFC 8656.
#[derive(Clone, Copy, Debug, PartialEq, Eq, PartialOrd, Ord, Hash)]
pub struct Addr {
    /// The four bytes of the address, the first one highest.
    pub ip: u32,
    pub port: u16,
}

/// As `198.51.100.7:40000`.
impl fmt::Display for Addr {
    ghost use Rattle.std.specs.Prelude.{Some};
    ghost use Rattle.audit_model.specs.Addr.{addr_text};

    ghost output = { λ addr. Some (addr_text addr) };

    fn fmt<W: fmt::Write>(&self, f: &mut fmt::Formatter<W>) -> fmt::Result {
        let [a, b, c, d] = self.ip.to_be_bytes();
        let port = self.port;
        write!(f, "{a}.{b}.{c}.{d}:{port}")
    }
}

/// Parses one of the four numbers of an address.
fn read_octet(word: &[u8]) -> Result<u8, TokenFault>
    ensures { result ≡ number_of 255 word.now }
{
    match number(word, 255) {
        Ok(octet) => Ok(octet as u8),
        Err(fault) => Err(fault),
    }
}

/// Parses a port, 0 to 65535.
pub fn read_port(word: &[u8]) -> Result<u16, TokenFault>
    ensures { result ≡ number_of 65535 word.now }
{
    match number(word, 65535) {
        Ok(port) => Ok(port as u16),
        Err(fault) => Err(fault),
    }
}

/// Parses an IPv4 address, four numbers joined by dots.
#[tactic(auto, unfolding(crate::specs::AddressText::ip_of))]
pub fn read_ip(word: &[u8]) -> Result<u32, TokenFault>
    ensures { result ≡ ip_of word.now }
{
    let (a, rest) = halves(word, b'.')?;
    let (b, rest) = halves(rest, b'.')?;
    let (c, d) = halves(rest, b'.')?;
    let front = both(read_octet(a), read_octet(b));
    let back = both(read_octet(c), read_octet(d));
    let ((a, b), (c, d)) = both(front, back)?;
    Ok(u32::from_be_bytes([a, b, c, d]))
}

impl Addr {
    ghost use Rattle.audit_model.specs.Addr.{addr_of};

    /// Parses an address, as `198.51.100.7:40000`.
    #[tactic(auto, unfolding(crate::specs::Addr::addr_of))]
    pub fn read(word: &[u8]) -> Result<Addr, TokenFault>
        ensures { result ≡ addr_of word.now }
    {
        let (ip, port) = halves(word, b':')?;
        let (ip, port) = both(read_ip(ip), read_port(port))?;
        Ok(Addr { ip, port })
    }
}
