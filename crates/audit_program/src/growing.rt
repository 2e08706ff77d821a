//! The source of captures that grow.

ghost use Rattle.std.specs.Prelude.{◌≡◌, ◌≢◌, ◌≤◌, ◌∷◌, [], ℕ, IfOk, IfSome, length, take};
ghost use Rattle.audit_model.specs.Sink.{followed_by};

use audit_files::ReadFailed;

/// Reads captures that grow, each from front to back.
pub trait Growing {
    ghost use Rattle.std.specs.Prelude.{ℕ, List, Option};

    /// The bytes that were read of the capture of a number. A source that is None claims nothing of
    /// them.
    ghost bytes_read: { Self → ℕ → Option (List ℕ) };

    /// How many bytes each read of the capture of a number returned, in their order. A source that
    /// is None claims nothing of them.
    ghost reads: { Self → ℕ → Option (List ℕ) };

    /// From here on each capture is read from its front.
    fn start(&mut self)
        ensures bytes_read { (capture : ℕ) → IfSome (bytes_read self.new capture) (λ bytes. bytes ≡ []) }
        ensures reads { (capture : ℕ) → IfSome (reads self.new capture) (λ sizes. sizes ≡ []) };

    /// Reads the next bytes of the capture of that number and that name, and returns how many: 0 if
    /// there are none now, or the buffer has no room. A capture has the same name in every call.
    fn more(&mut self, capture: u32, name: &str, into: &mut [u8]) -> Result<usize, ReadFailed>
        ensures within { IfOk result (λ n. n ≤ length into.old) }
        ensures bytes { IfOk result (λ n. bytes_read self.new capture ≡ followed_by (bytes_read self.old capture) (take n into.new)) }
        ensures others { (other : ℕ) → other ≢ capture → bytes_read self.new other ≡ bytes_read self.old other }
        ensures read { IfOk result (λ n. reads self.new capture ≡ followed_by (reads self.old capture) (n ∷ [])) }
        ensures unread { (other : ℕ) → other ≢ capture → reads self.new other ≡ reads self.old other };

    /// Is called if no capture had a byte in a turn, and there will be another turn. It may wait
    /// for a while.
    fn pause(&mut self)
        ensures bytes_read { bytes_read self.new ≡ bytes_read self.old }
        ensures reads { reads self.new ≡ reads self.old };
}
