//! A checksum by which two readings of a file are compared.

ghost use Rattle.std.specs.Prelude.{◌≡◌, ◌+◌, ◌%◌, ◌^◌, length};

/// A checksum of the bytes so far. It doesn't depend on the pieces in which they are added. It is
/// fast and not collision-resistant: it finds a file that is written while it is read.
#[derive(Debug, Drop)]
pub struct Checksum {
    /// All whole words of eight bytes, mixed.
    mixed: u64,
    /// The bytes after the last whole word, in the highest bits.
    part: u64,
    /// The number of bytes, modulo 2^64.
    count: u64,
}

impl Checksum {
    /// No bytes.
    pub fn new() -> Self
        ensures { (result.mixed ≡ 0) × (result.part ≡ 0) × (result.count ≡ 0) }
    {
        Checksum {
            mixed: 0,
            part: 0,
            count: 0,
        }
    }

    /// Adds bytes.
    pub fn update(&mut self, bytes: &[u8])
        ensures { self.new.count ≡ (self.old.count + length bytes.now) % 2 ^ 64 }
    {
        let count = self.count.wrapping_add(bytes.len() as u64);
        let rest = self.complete_word(bytes);
        let (words, tail) = rest.as_chunks::<8>();
        for word in words {
            self.mixed = mixed(self.mixed, u64::from_le_bytes(*word));
        }
        for byte in tail {
            self.add(*byte);
        }
        self.count = count;
    }

    /// Completes the last word, and returns the bytes after it.
    fn complete_word<'a>(&mut self, bytes: &'a [u8]) -> &'a [u8] {
        let missing = (8 - self.count % 8) % 8;
        let (first, rest) = bytes.split_at(bytes.len().min(missing as usize));
        for byte in first {
            self.add(*byte);
        }
        rest
    }

    /// Adds a byte.
    fn add(&mut self, byte: u8) {
        self.part = (self.part >> 8) | ((byte as u64) << 56);
        self.count = self.count.wrapping_add(1);
        if self.count % 8 == 0 {
            self.mixed = mixed(self.mixed, self.part);
            self.part = 0;
        }
    }

    /// The checksum.
    pub fn value(&self) -> u64 {
        mixed(mixed(self.mixed, self.part), self.count)
    }
}

/// Mixes a word into a checksum. The factor is odd and its bits look random, so that each bit of a
/// word changes many.
fn mixed(sum: u64, word: u64) -> u64 {
    (sum.rotate_left(5) ^ word).wrapping_mul(0x517c_c1b7_2722_0a95)
}
