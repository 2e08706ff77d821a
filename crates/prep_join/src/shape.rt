//! Sections and interfaces, which are those of the first capture.

ghost use Rattle.std.specs.Prelude.{◌≡◌, ◌≢◌, ◌≤◌, ◌∷◌, ◌++◌, [], true, ℕ, List, length, OnOk, IfErr};
ghost use Rattle.prep_blocks.specs.declared.block.Block.{Block};
ghost use Rattle.prep_join.specs.Rings.{is_section, is_interface, is_kept, interfaces_of, first_of, IsUnbounded};
ghost use Rattle.prep_join.specs.Shapes.{IsShaped, FitsShape, RefusesShape};
ghost use Rattle.prep_join.specs.declared.fault.JoinFault.TheVariants.{Interfaces};

use crate::fault::JoinFault;
use audit_pcapng::{BlockKind, ByteOrder};
use prep_blocks::Block;
use std::alloc::Global;

/// The sections and interfaces so far.
#[derive(Debug, Drop)]
pub struct Shape {
    /// Whether the capture is the first one.
    is_first: bool,
    /// The byte order of the first capture.
    order: Option<ByteOrder>,
    /// The interface blocks of the first capture, one after another.
    interfaces: Vec<u8>,
    /// How many bytes of them this capture has had.
    shown: usize,
    has_section: bool,
    /// Whether a packet or statistics were in this capture.
    has_data: bool,
}

/// The offset of the section's length in a section block.
const SECTION_LENGTH: usize = 16;

/// The least number of bytes of a section block up to the end of that field.
const SECTION_LENGTH_END: usize = 24;

impl Shape {
    /// Before the first block.
    pub fn new(alloc: Global) -> Self
        ensures { IsShaped result [] [] }
    {
        Shape {
            is_first: true,
            order: None,
            interfaces: Vec::new(alloc),
            shown: 0,
            has_section: false,
            has_data: false,
        }
    }

    /// Checks the next block of this capture.
    pub fn take(&mut self, block: &Block) -> Result<(), JoinFault>
        ensures ok { (done : List (List Block)) (current : List Block) → IsShaped self.old done current →
            OnOk result (IsShaped self.new done (current ++ block.now ∷ [])) }
        ensures fits { (done : List (List Block)) (current : List Block) → IsShaped self.old done current →
            OnOk result (FitsShape done current block.now) }
        ensures err { (done : List (List Block)) (current : List Block) → IsShaped self.old done current →
            IfErr result (λ fault. RefusesShape fault done current block.now) }
    {
        match block.kind {
            BlockKind::Section => self.begin(block),
            BlockKind::Interface => self.describe(block),
            BlockKind::Packet | BlockKind::Statistics => {
                self.has_data = true;
                Ok(())
            }
            BlockKind::NoStamp | BlockKind::Other => Ok(()),
        }
    }

    /// Whether the block is written: all of the first capture, and of a later one all except the
    /// section header and the interfaces.
    pub fn keeps(&self, block: &Block) -> bool
        ensures { (done : List (List Block)) (current : List Block) → IsShaped self.now done current → result ≡ is_kept done block.now }
    {
        match block.kind {
            BlockKind::Section | BlockKind::Interface => self.is_first,
            _ => true,
        }
    }

    /// Ends this capture, which must have had all interfaces of the first one.
    pub fn end(&mut self) -> Result<(), JoinFault>
        ensures ok { (done : List (List Block)) (current : List Block) → IsShaped self.old done current →
            OnOk result (IsShaped self.new (done ++ current ∷ []) []) }
        ensures same { (done : List (List Block)) (current : List Block) → IsShaped self.old done current →
            OnOk result (interfaces_of current ≡ interfaces_of (first_of done current)) }
        ensures err { (done : List (List Block)) (current : List Block) → IsShaped self.old done current →
            IfErr result (λ fault. (fault ≡ Interfaces) × (interfaces_of current ≢ interfaces_of (first_of done current))) }
    {
        if self.shown != self.interfaces.len() {
            return Err(JoinFault::Interfaces);
        }
        self.is_first = false;
        self.shown = 0;
        self.has_section = false;
        self.has_data = false;
        Ok(())
    }

    /// A section header, the one of its capture.
    fn begin(&mut self, block: &Block) -> Result<(), JoinFault>
        requires { is_section block.now ≡ true }
        ensures ok { (done : List (List Block)) (current : List Block) → IsShaped self.old done current →
            OnOk result (IsShaped self.new done (current ++ block.now ∷ [])) }
        ensures fits { (done : List (List Block)) (current : List Block) → IsShaped self.old done current →
            OnOk result (FitsShape done current block.now) }
        ensures err { (done : List (List Block)) (current : List Block) → IsShaped self.old done current →
            IfErr result (λ fault. RefusesShape fault done current block.now) }
    {
        if self.has_section {
            return Err(JoinFault::TwoSections);
        }
        if !is_unbounded(block) {
            return Err(JoinFault::SectionLength);
        }
        if self.is_first {
            self.order = Some(block.order);
            self.has_section = true;
            return Ok(());
        }
        if self.order != Some(block.order) {
            return Err(JoinFault::Order);
        }
        self.has_section = true;
        Ok(())
    }

    /// An interface block: in a later capture it is the first capture's next one.
    fn describe(&mut self, block: &Block) -> Result<(), JoinFault>
        requires { is_interface block.now ≡ true }
        ensures ok { (done : List (List Block)) (current : List Block) → IsShaped self.old done current →
            OnOk result (IsShaped self.new done (current ++ block.now ∷ [])) }
        ensures fits { (done : List (List Block)) (current : List Block) → IsShaped self.old done current →
            OnOk result (FitsShape done current block.now) }
        ensures err { (done : List (List Block)) (current : List Block) → IsShaped self.old done current →
            IfErr result (λ fault. RefusesShape fault done current block.now) }
    {
        if self.has_data {
            return Err(JoinFault::LateInterface);
        }
        let bytes = block.bytes.as_slice();
        if self.is_first {
            self.interfaces.extend_from_slice(bytes)?;
            self.shown = self.interfaces.len();
            return Ok(());
        }
        let from = self.shown.min(self.interfaces.len());
        let (_, expected) = self.interfaces.split_at(from);
        let Some(rest) = expected.strip_prefix(bytes) else {
            return Err(JoinFault::Interfaces);
        };
        self.shown = self.interfaces.len() - rest.len();
        Ok(())
    }
}

/// Whether a section block states no length.
fn is_unbounded(block: &Block) -> bool
    ensures yes { result ≡ true → IsUnbounded block.now }
    ensures no { IsUnbounded block.now → result ≡ true }
{
    let bytes = block.bytes.as_slice();
    bytes.len() >= SECTION_LENGTH_END && block.order.u64_at(bytes, SECTION_LENGTH) == u64::MAX
}
