//! Sinks, to which output is written.

ghost use Rattle.std.specs.Prelude.{◌≡◌, ◌≤◌, length, take, IfOk, OnOk, OnErr};
ghost use Rattle.audit_model.specs.Sink.{failures_of, followed_by, raised_by, IsFollowedByFront};

/// A sink wrote none of the bytes.
#[derive(Clone, Copy, Debug, PartialEq, Eq)]
pub struct SinkFailed;

/// Writes bytes, and counts how often it failed to.
pub trait Sink {
    ghost use Rattle.std.specs.Prelude.{ℕ, List, Option};

    /// The bytes that it has written. A sink that is None claims nothing of them.
    ghost taken: { Self → Option (List ℕ) };

    /// How many calls of `put` failed: by an error, or because nothing was written of a piece that
    /// isn't empty. A sink that is None claims nothing of it.
    ghost failures: { Self → Option ℕ };

    /// Writes a prefix of the piece, and returns its length.
    fn put(&mut self, piece: &[u8]) -> Result<usize, SinkFailed>
        ensures within { IfOk result (λ n. n ≤ length piece.now) }
        ensures took { IfOk result (λ n. taken self.new ≡ followed_by (taken self.old) (take n piece.now)) }
        ensures failed { OnErr result (taken self.new ≡ taken self.old) }
        ensures counted { failures self.new ≡ raised_by (failures self.old) (failures_of result (length piece.now)) };
}

/// Writes all of the bytes, piece by piece. After a failure a prefix of them is written, and the
/// sink has counted that failure.
pub fn put_all<W: Sink>(sink: &mut W, bytes: &[u8]) -> Result<(), SinkFailed>
    ensures ok { OnOk result (W.taken sink.new ≡ followed_by (W.taken sink.old) bytes.now) }
    ensures front { OnErr result (IsFollowedByFront (W.taken sink.old) bytes.now (W.taken sink.new)) }
    ensures kept { OnOk result (W.failures sink.new ≡ W.failures sink.old) }
    ensures failed { OnErr result (W.failures sink.new ≡ raised_by (W.failures sink.old) 1) }
{
    let mut done = 0;
    while done < bytes.len() {
        let taken = sink.put(&bytes[done..])?;
        if taken == 0 {
            return Err(SinkFailed);
        }
        done += taken;
    }
    Ok(())
}
