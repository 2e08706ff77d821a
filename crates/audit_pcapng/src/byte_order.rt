//! Reads numbers in a section's byte order.

ghost use Rattle.std.specs.Prelude.{◌≡◌, ◌+◌, ◌≤◌, length};
ghost use Rattle.std.specs.Int.{w16, w32, w64};

/// The byte order of a section's numbers, which its byte-order magic shows (section 4.1).
#[derive(Clone, Copy, Debug, PartialEq, Eq)]
pub enum ByteOrder {
    Little,
    Big,
}

impl ByteOrder {
    ghost use Rattle.audit_pcapng.specs.Numbers.{number_at};

    /// The 16-bit number that begins at an offset.
    #[tactic(auto, unfolding(crate::specs::Numbers::number_at))]
    pub fn u16_at(self, bytes: &[u8], offset: usize) -> u16
        requires { offset + 2 ≤ length bytes.now }
        ensures { result ≡ number_at self w16 offset bytes.now }
    {
        let (_, from) = bytes.split_at(offset);
        let (field, _) = from.split_at(2);
        let field = [field[0], field[1]];
        match self {
            ByteOrder::Little => u16::from_le_bytes(field),
            ByteOrder::Big => u16::from_be_bytes(field),
        }
    }

    /// The 32-bit number that begins at an offset.
    #[tactic(auto, unfolding(crate::specs::Numbers::number_at))]
    pub fn u32_at(self, bytes: &[u8], offset: usize) -> u32
        requires { offset + 4 ≤ length bytes.now }
        ensures { result ≡ number_at self w32 offset bytes.now }
    {
        let (_, from) = bytes.split_at(offset);
        let (field, _) = from.split_at(4);
        let field = [field[0], field[1], field[2], field[3]];
        match self {
            ByteOrder::Little => u32::from_le_bytes(field),
            ByteOrder::Big => u32::from_be_bytes(field),
        }
    }

    /// The 64-bit number that begins at an offset.
    #[tactic(auto, unfolding(crate::specs::Numbers::number_at))]
    pub fn u64_at(self, bytes: &[u8], offset: usize) -> u64
        requires { offset + 8 ≤ length bytes.now }
        ensures { result ≡ number_at self w64 offset bytes.now }
    {
        let (_, from) = bytes.split_at(offset);
        let (field, _) = from.split_at(8);
        let field = [
            field[0], field[1], field[2], field[3], field[4], field[5], field[6], field[7],
        ];
        match self {
            ByteOrder::Little => u64::from_le_bytes(field),
            ByteOrder::Big => u64::from_be_bytes(field),
        }
    }
}
