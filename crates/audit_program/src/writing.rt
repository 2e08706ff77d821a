//! Writes texts other than the report.

ghost use Rattle.std.specs.Prelude.{◌≡◌, IfErr, OnOk};
ghost use Rattle.audit_files.specs.Ends.{EndsWriting};
ghost use Rattle.audit_model.specs.Sink.{followed_by};

use audit_files::Stop;
use audit_model::{Sink, put_all};
use std::alloc::Global;

/// Writes a text.
pub fn put_text<W: Sink>(sink: &mut W, text: &str) -> Result<(), Stop>
    ensures put { OnOk result (W.taken sink.new ≡ followed_by (W.taken sink.old) text.now) }
    ensures failed { IfErr result (EndsWriting (W.failures sink.old) (W.failures sink.new)) }
{
    put_all(sink, text.as_bytes())?;
    Ok(())
}

/// Writes the line with the reason for the run's end. If that fails, nothing more can be done.
pub fn put_line<W: Sink>(alloc: Global, sink: &mut W, stop: &Stop) {
    match format!(in alloc; "turnaudit: {stop}\n") {
        Ok(line) => {
            let _ = put_all(sink, line.as_bytes());
        }
        Err(_) => {
            let _ = put_all(sink, b"turnaudit: out of memory\n");
        }
    }
}
