//! The effect of an act on the table.

use crate::allocate::Made;
use crate::channel_bind::Bound;
use crate::permission::PeerIps;

/// The effect of an act on the client's allocation.
#[derive(Drop)]
pub enum Effect<'a> {
    /// Nothing.
    Same,
    /// There is a new allocation, made by the request of this transaction id.
    Makes { made: Made<'a>, id: [u8; 12] },
    /// It lasts for this number of seconds from now on; with 0 it is removed.
    Refreshes { seconds: u32 },
    /// Each of the IPs has a permission for 300 seconds (RFC 8656, section 9).
    Grants { ips: PeerIps },
    /// The channel lasts for 600 seconds, and its peer has a permission for 300 (RFC 8656, section
    /// 12).
    Binds { bound: Bound },
}
