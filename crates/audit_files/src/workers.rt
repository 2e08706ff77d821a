//! The number of threads that judge lanes.

ghost use Rattle.std.specs.Prelude.{◌≡◌, ◌<◌, ◌≤◌, IfNone, IfSome};

/// The number of workers that judge the lanes, 1 to 256.
#[derive(Clone, Copy, Debug)]
pub struct Workers {
    pub count: u32,
    pub ghost some: { 0 < count },
    pub ghost few: { count ≤ 256 },
}

impl Workers {
    /// This number of workers, if it is 1 to 256.
    pub fn of(count: u32) -> Option<Workers>
        ensures some { IfSome result (λ workers. workers.count ≡ count) }
        ensures none { IfNone result ((0 < count) × (count ≤ 256) → ⊥) }
    {
        if count == 0 || count > 256 {
            return None;
        }
        Some(Workers { count })
    }

    /// The number that is left if one does something else, at least one.
    pub fn others(self) -> Workers {
        Workers {
            count: (self.count - 1).max(1),
        }
    }

    /// The caller's thread alone.
    pub fn one() -> Workers
        ensures { result.count ≡ 1 }
    {
        Workers { count: 1 }
    }
}
