//! Arrivals that a lane may act on.

ghost use Rattle.std.specs.Prelude.{◌≡◌};

use audit_seen::PoolNumber;

/// The arrivals of a pool that a lane may act on. Of a peer's datagrams, those that more likely
/// belong to another lane are separate.
#[derive(Clone, Copy, Debug, PartialEq, Eq, PartialOrd, Ord)]
pub struct PoolRef {
    pool: PoolNumber,
    is_shared: bool,
}

impl PoolRef {
    /// Those that most likely belong to this lane.
    pub fn own(pool: PoolNumber) -> PoolRef {
        PoolRef {
            pool,
            is_shared: false,
        }
    }

    /// Those that more likely belong to another lane.
    pub fn shared(pool: PoolNumber) -> PoolRef {
        PoolRef {
            pool,
            is_shared: true,
        }
    }

    /// Whether they more likely belong to another lane.
    pub fn is_shared(&self) -> bool
        ensures { result ≡ self.now.is_shared }
    {
        self.is_shared
    }
}
