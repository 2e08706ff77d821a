//! Kinds of bytes in a line of a configuration.

ghost use Rattle.std.specs.Prelude.{◌≡◌, ◌≤◌, ◌-◌, length};
ghost use Rattle.std.specs.List.{prefix_len, suffix_len};
ghost use Rattle.prep_coturn.specs.Rows.{is_of};

/// A kind of bytes.
#[derive(Clone, Copy, Debug)]
pub enum Class {
    /// Spaces and tabs.
    Blank,
    /// Bytes that separate a name from its value: blanks and `=`.
    Separator,
    /// All bytes that a name may have.
    Name,
    /// Carriage returns.
    Return,
}

impl Class {
    /// Whether the byte is of this kind.
    fn has(self, byte: u8) -> bool
        ensures { result ≡ is_of self byte }
    {
        match self {
            Class::Blank => byte == b' ' || byte == b'\t',
            Class::Separator => byte == b' ' || byte == b'\t' || byte == b'=',
            Class::Name => !(byte == b' ' || byte == b'\t' || byte == b'='),
            Class::Return => byte == b'\r',
        }
    }

    /// How many bytes at the start are of this kind.
    pub fn front(self, text: &[u8]) -> usize
        ensures count { result ≡ prefix_len (is_of self) text.now }
        ensures within { result ≤ length text.now }
    {
        for (at, byte) in text.iter().enumerate() {
            if !self.has(*byte) {
                return at;
            }
        }
        text.len()
    }

    /// How many bytes remain without those at the end that are of this kind.
    pub fn kept(self, text: &[u8]) -> usize
        ensures { result ≡ length text.now - suffix_len (is_of self) text.now }
    {
        let mut kept = 0;
        for (at, byte) in text.iter().enumerate() {
            if !self.has(*byte) {
                kept = at + 1;
            }
        }
        kept
    }
}
