//! Records captures that are files.

ghost use Rattle.std.specs.Prelude.{◌≡◌, [], ℕ, List, Option, Some, OnOk, IfOk};
ghost use Rattle.std.specs.List.{AllZip};
ghost use Rattle.audit_model.specs.declared.policy.Policy.{Policy as AnyPolicy};
ghost use Rattle.prep_blocks.specs.declared.block.Block.{Block};
ghost use Rattle.prep_records.specs.Recording.{IsRecording, Ended};
ghost use Rattle.prep_program.specs.Recordings.{Recorded, RecordedAll};

use crate::source::{PIECE, Source};
use crate::stop::Stop;
use audit_model::Policy;
use prep_cut::Stated;
use prep_records::{Recorder, Records};
use std::alloc::Global;

/// Records one more capture, from its first byte to its last.
fn record_capture<S: Source>(
    alloc: Global,
    source: &mut S,
    name: &str,
    recorder: &mut Recorder<'_>,
    capture: u32,
) -> Result<(), Stop>
    ensures kept { S.holds source.new ≡ S.holds source.old }
    ensures records { (text : List ℕ) (policy : AnyPolicy) (since : Option ℕ) (earlier : List Block) → S.holds source.old name.now ≡ Some text →
        IsRecording recorder.old policy since earlier [] [] → OnOk result (Recorded recorder.new policy since earlier text) }
{
    let mut piece = vec![in alloc; 0u8; PIECE]?;
    let mut at = 0u64;
    'pieces: for _ in 0..u64::MAX {
        let read = source.piece(name, at, &mut piece)?;
        if read == 0 {
            return end_capture(recorder, capture);
        }
        if let Err(fault) = recorder.feed(&piece[..read]) {
            return Err(Stop::of_cut(capture, fault.into()));
        }
        let Some(next) = at.checked_add(read as u64) else {
            return Err(Stop::Read);
        };
        at = next;
    }
    Err(Stop::Read)
}

/// Ends a capture.
fn end_capture(recorder: &mut Recorder<'_>, capture: u32) -> Result<(), Stop>
    ensures { (policy : AnyPolicy) (since : Option ℕ) (earlier : List Block) (text : List ℕ) (current : List Block) →
        IsRecording recorder.old policy since earlier text current → OnOk result (Ended recorder.new policy since earlier text current) }
{
    match recorder.end() {
        Ok(()) => Ok(()),
        Err(fault) => Err(Stop::of_cut(capture, fault.into())),
    }
}

/// Reads captures for the proposals. All Allocate requests and responses are recorded, except those
/// in packets before the stated moment.
pub fn record_captures<S: Source>(
    alloc: Global,
    source: &mut S,
    names: &[&str],
    policy: &Policy,
    stated: Stated,
) -> Result<Records, Stop>
    ensures kept { S.holds source.new ≡ S.holds source.old }
    ensures noted { (texts : List (List ℕ)) → AllZip (λ name text. S.holds source.old name.now ≡ Some text) names.now texts →
        IfOk result (λ records. RecordedAll texts policy.now stated.since records.allocations) }
{
    let mut recorder = Recorder::new(alloc, policy, stated);
    let mut capture = 0u32;
    for name in names {
        record_capture(alloc, source, name, &mut recorder, capture)?;
        capture = capture.saturating_add(1);
    }
    Ok(recorder.finish())
}
