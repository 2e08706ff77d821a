//! A client and its listen address.

use crate::address::Addr;

/// A client, and the listen address to which it sends its requests.
#[derive(Clone, Copy, Debug, PartialEq, Eq)]
pub struct Pair {
    pub client: Addr,
    pub listen: Addr,
}
