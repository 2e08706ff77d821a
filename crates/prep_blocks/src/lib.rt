//! Splits a pcapng capture into its blocks, with their bytes, from bytes that come in pieces.
#![tactic(auto)]

mod block;
mod splitter;

pub use block::{Block, PacketHead};
pub use splitter::BlockSplitter;
