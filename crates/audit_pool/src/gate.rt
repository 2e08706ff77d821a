//! A caller's hooks before and after each judging.

/// Called by the worker that judges a lane, without the book's lock: other workers may be in it at
/// the same time. Its functions must return, also if no thread can be started and the workers run
/// one after another.
pub trait Gate {
    /// Called before the lane of this number is judged.
    fn before(&self, lane: u32);

    /// Called once it is judged, also if memory ran out for that.
    fn after(&self, lane: u32);
}

/// Does nothing.
impl Gate for () {
    fn before(&self, _lane: u32) {}

    fn after(&self, _lane: u32) {}
}
