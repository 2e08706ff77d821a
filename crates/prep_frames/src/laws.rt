//! The law about the frame of a block. It does nothing at run time.

ghost use Rattle.std.specs.Prelude.{◌≡◌, Some};
ghost use Rattle.audit_pcapng.specs.declared.packet.Packet.{Packet};
ghost use Rattle.audit_pcapng.specs.declared.scope.Scope.{Scope};
ghost use Rattle.prep_blocks.specs.declared.block.Block.{Block};
ghost use Rattle.prep_blocks.specs.Read.{IsRead, head_of};
ghost use Rattle.prep_frames.specs.Frames.{frame_in};

/// The frame of a packet's block is the bytes of the packet that is read from the block.
pub fn frame_is_the_packets()
    ensures { (scope after : Scope) (block : Block) (packet : Packet) → IsRead scope block (Some packet) after
        → frame_in block (head_of packet) ≡ packet.bytes }
{}
