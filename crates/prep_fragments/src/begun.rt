//! A datagram with missing fragments.

use audit_model::Listed;
use prep_blocks::Block;

/// The fragments of a datagram so far, in the order of their data.
#[derive(Debug, Drop)]
pub struct Begun {
    /// The stamp of the first fragment, in nanoseconds since 1970.
    pub stamp: u64,
    /// The number of their data bytes.
    pub length: usize,
    pub fragments: Listed<Block>,
}
