//! The payloads of a capture that comes in pieces.

ghost use Rattle.std.specs.Prelude.{◌≡◌, ◌++◌, [], ℕ, List, OnOk, IfOk};
ghost use Rattle.prep_blocks.specs.declared.block.Block.{Block};
ghost use Rattle.prep_users.specs.Rolls.{AreProved, payload_at};

use crate::roll::Roll;
use audit_packets::Seen;
use audit_pcapng::CaptureFault;
use prep_blocks::{Block, BlockSplitter};
use prep_frames::{frame_of, seen_of};
use std::alloc::{AllocError, Global};

/// Reads one capture that comes in pieces, cut anywhere. It keeps the one block that is not yet
/// complete. After a fault it can't be used any more.
#[derive(Debug, Drop)]
pub struct Scan {
    splitter: BlockSplitter,
}

impl Scan {
    ghost use Rattle.prep_users.specs.declared.account.Account.{Account};
    ghost use Rattle.prep_users.specs.declared.claim.Secret.{Secret};
    ghost use Rattle.prep_users.specs.Rolls.{AreProved, IsScanning, ScansOn};
    ghost use Rattle.prep_blocks.specs.Splitting.{StandsFor, IsWhole};

    /// Before the first byte. It takes no memory.
    pub fn new(alloc: Global) -> Self
        ensures { (secrets : List Secret) (accounts : List Account) (earlier : List (List ℕ)) → AreProved secrets accounts earlier →
            IsScanning result.splitter secrets accounts [] [] earlier }
    {
        Scan {
            splitter: BlockSplitter::new(alloc),
        }
    }

    /// Feeds the next piece of the capture, and passes the payloads of the blocks that are complete
    /// now to the roll.
    pub fn feed(&mut self, roll: &mut Roll, piece: &[u8]) -> Result<(), CaptureFault>
        ensures secrets { roll.new.secrets ≡ roll.old.secrets }
        ensures proved { (text : List ℕ) (blocks : List Block) (earlier : List (List ℕ)) →
            IsScanning self.old.splitter roll.old.secrets roll.old.accounts text blocks earlier →
            OnOk result (ScansOn self.new.splitter roll.old.secrets roll.new.accounts text blocks earlier piece.now []) }
    {
        let mut rest = piece;
        for _ in 0..piece.len() {
            let Some((block, behind)) = self.splitter.next(rest)? else {
                return Ok(());
            };
            take_block(roll, &block)?;
            rest = behind;
        }
        Ok(())
    }

    /// Whether the capture may end here.
    pub fn finish(&self) -> Result<(), CaptureFault>
        ensures { (text : List ℕ) (blocks : List Block) → StandsFor self.now.splitter text blocks → OnOk result (IsWhole text blocks) }
    {
        self.splitter.finish()?;
        Ok(())
    }
}

/// Passes the payload of a block to the roll, if it has a UDP datagram.
fn take_block(roll: &mut Roll, block: &Block) -> Result<(), AllocError>
    ensures secrets { roll.new.secrets ≡ roll.old.secrets }
    ensures proved { (payloads : List (List ℕ)) → AreProved roll.old.secrets roll.old.accounts payloads →
        OnOk result (AreProved roll.old.secrets roll.new.accounts (payloads ++ payload_at block.now block.now.packet)) }
{
    let Some(head) = block.packet else {
        return Ok(());
    };
    match seen_of(frame_of(block, head), head) {
        Seen::Udp { payload, .. } => roll.take(payload),
        _ => Ok(()),
    }
}
