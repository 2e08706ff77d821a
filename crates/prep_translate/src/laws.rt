//! Laws about the translation of a block. They do nothing at run time.

ghost use Rattle.std.specs.Prelude.{◌≡◌, ◌<◌, ◌^◌, ℕ, List, Some};
ghost use Rattle.audit_model.specs.declared.address.Addr.{Addr};
ghost use Rattle.audit_packets.specs.Spelled.{HoldsUdp};
ghost use Rattle.prep_blocks.specs.declared.block.Block.{Block};
ghost use Rattle.prep_blocks.specs.declared.block.PacketHead.{PacketHead};
ghost use Rattle.prep_frames.specs.Frames.{frame_in};
ghost use Rattle.prep_translate.specs.declared.renaming.Renaming.{Renaming};
ghost use Rattle.prep_translate.specs.Renaming.{renamed};
ghost use Rattle.prep_translate.specs.Frames.{written_of, AreBytes, IsNoDatagram, IsRenamed};

/// In a block with a UDP datagram, the four bytes of each address are translated, and nothing else
/// changes. The output contains the same payload, between the translated addresses.
pub fn renames_alone()
    ensures { (renaming : Renaming) (block : Block) (head : PacketHead) (from to : Addr) (payload : List ℕ) → block.packet ≡ Some head
        → AreBytes (frame_in block head) → HoldsUdp (frame_in block head) from to payload
        → (renamed renaming from).ip < 2 ^ 32 → (renamed renaming to).ip < 2 ^ 32
        → IsRenamed renaming head block.bytes (written_of renaming block) from to payload }
{}

/// Each other block is written unchanged, byte for byte.
pub fn keeps_others()
    ensures { (renaming : Renaming) (block : Block) → ((head : PacketHead) → AreBytes (frame_in block head)) → IsNoDatagram block
        → written_of renaming block ≡ block.bytes }
{}
