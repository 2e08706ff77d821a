//! A pair of addresses, of which one replaces the other.

ghost use Rattle.std.specs.Prelude.{◌≡◌};
ghost use Rattle.prep_translate.specs.Words.{pair_of};

use audit_model::read_ip;
use audit_text::{TokenFault, both, halves};
use std::fmt;

/// A one-to-one translation of an IPv4 address, like `external-ip` of coturn.
#[derive(Clone, Copy, Debug, PartialEq, Eq)]
pub struct Translation {
    /// The address that clients and peers see.
    pub public: u32,
    /// The private address on the wire of the server.
    pub inner: u32,
}

impl Translation {
    /// Parses a translation, as `198.18.0.1/192.0.2.1`. It takes no memory.
    #[tactic(auto, unfolding(crate::specs::Words::pair_of))]
    pub fn read(word: &[u8]) -> Result<Translation, TokenFault>
        ensures { result ≡ pair_of word.now }
    {
        let (public, inner) = halves(word, b'/')?;
        let (public, inner) = both(read_ip(public), read_ip(inner))?;
        Ok(Translation { public, inner })
    }
}

/// As `198.18.0.1/192.0.2.1`.
impl fmt::Display for Translation {
    fn fmt<W: fmt::Write>(&self, f: &mut fmt::Formatter<W>) -> fmt::Result {
        let public = Ip(self.public);
        let inner = Ip(self.inner);
        write!(f, "{public}/{inner}")
    }
}

/// An IPv4 address without a port.
#[derive(Clone, Copy, Debug)]
pub(crate) struct Ip(pub(crate) u32);

impl fmt::Display for Ip {
    fn fmt<W: fmt::Write>(&self, f: &mut fmt::Formatter<W>) -> fmt::Result {
        let [a, b, c, d] = self.0.to_be_bytes();
        write!(f, "{a}.{b}.{c}.{d}")
    }
}
