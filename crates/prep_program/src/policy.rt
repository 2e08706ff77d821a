//! Makes a policy from a configuration that is a file.

ghost use Rattle.prep_program.specs.Answered.{IsSuccess};

use crate::source::Source;
use crate::stop::Stop;
use crate::text::read_conf_text;
use audit_model::{Sink, put_all};
use prep_coturn::{Options, prepare};
use std::alloc::Global;

/// Writes the policy of a configuration, and the notes about it.
pub fn run_policy<S: Source, O: Sink, E: Sink>(
    alloc: Global,
    file: &str,
    options: &Options<'_>,
    source: &mut S,
    out: &mut O,
    err: &mut E,
) -> Result<u8, Stop>
    ensures { IsSuccess result }
{
    let text = read_conf_text(alloc, source, file)?;
    let prepared = prepare(alloc, &text, options)?;
    put_all(out, prepared.policy.as_bytes())?;
    put_all(err, prepared.notes.as_bytes())?;
    Ok(0)
}
