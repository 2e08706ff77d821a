//! The order of packets from one capture to the next.

ghost use Rattle.std.specs.Prelude.{◌≡◌, ◌∷◌, ◌++◌, ◌≤◌, [], true, false, nat_eq, ℕ, List, Some, OnOk, IfOk, IfErr, cond};
ghost use Rattle.std.specs.HashMap.{get};
ghost use Rattle.std.specs.HashSet.{contains};
ghost use Rattle.prep_blocks.specs.declared.block.Block.{Block};
ghost use Rattle.prep_join.specs.Rings.{with_stamp};
ghost use Rattle.prep_join.specs.Stamped.{IsStamped, FitsStamps, RefusesStamps, Notes, IsEarly};

use crate::fault::JoinFault;
use prep_blocks::{Block, PacketHead};
use std::alloc::Global;
use std::collections::{HashMap, HashSet};

/// The stamps of each interface's packets.
#[derive(Debug, Drop)]
pub struct Stamps {
    /// The latest stamp of each interface.
    latest: HashMap<u32, u64>,
    /// The interfaces that have had a packet in this capture.
    begun: HashSet<u32>,
}

impl Stamps {
    /// Before the first block.
    pub fn new(alloc: Global) -> Self
        ensures { IsStamped result [] [] }
    {
        Stamps {
            latest: HashMap::new(alloc),
            begun: HashSet::new(alloc),
        }
    }

    /// Checks the next block of this capture.
    pub fn take(&mut self, block: &Block) -> Result<(), JoinFault>
        ensures ok { (done : List (List Block)) (current : List Block) → IsStamped self.old done current →
            OnOk result (IsStamped self.new done (current ++ block.now ∷ [])) }
        ensures fits { (done : List (List Block)) (current : List Block) → IsStamped self.old done current →
            OnOk result (FitsStamps done current block.now) }
        ensures err { (done : List (List Block)) (current : List Block) → IsStamped self.old done current →
            IfErr result (λ fault. RefusesStamps fault done current block.now) }
    {
        match block.packet {
            Some(head) => self.note(head),
            None => Ok(()),
        }
    }

    /// Begins the next capture.
    pub fn end(&mut self)
        ensures { (done : List (List Block)) (current : List Block) → IsStamped self.old done current →
            IsStamped self.new (done ++ current ∷ []) [] }
    {
        self.begun.clear();
    }

    /// Records a packet. The first one of its interface in this capture may not be earlier than
    /// those of earlier captures.
    fn note(&mut self, head: PacketHead) -> Result<(), JoinFault>
        ensures ok { OnOk result (Notes self.old self.new head) }
        ensures in_order { OnOk result (contains nat_eq self.old.begun head.iface ≡ false →
            (latest : ℕ) → get nat_eq self.old.latest head.iface ≡ Some latest → latest ≤ head.stamp) }
        ensures err { IfErr result (λ fault. IsEarly fault self.old head) }
    {
        let latest = self.latest.get(&head.iface).copied();
        if let Some(latest) = latest {
            if head.stamp < latest && !self.begun.contains(&head.iface) {
                return Err(JoinFault::Early { iface: head.iface });
            }
        }
        let newest = match latest {
            Some(latest) => latest.max(head.stamp),
            None => head.stamp,
        };
        self.begun.insert(head.iface)?;
        self.latest.insert(head.iface, newest)?;
        Ok(())
    }
}
