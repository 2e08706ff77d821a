//! The first words of an answer: the verdict.

ghost use Rattle.std.specs.Prelude.{◌≡◌, ◌++◌, IfOk, OnOk, string_bytes};
ghost use Rattle.audit_model.specs.Sink.{followed_by};
ghost use Rattle.explain_program.specs.Explained.{head_text};

use audit_model::{Sink, Verdict, WriteFault, put_all};
use audit_report::rule_text;
use std::alloc::{AllocError, Global};

/// The verdict in a few words.
pub fn head(alloc: Global, verdict: &Verdict) -> Result<String, AllocError>
    ensures { IfOk result (λ text. string_bytes text ≡ head_text verdict.now) }
{
    match verdict {
        Verdict::Conforming { datagrams, lanes } => {
            format!(in alloc; "conforming  {datagrams} datagrams, {lanes} lanes")
        }
        Verdict::NotShown(breach) => {
            let rule = rule_text(breach.rule);
            format!(in alloc; "not shown  {rule}")
        }
    }
}

/// Writes the verdict in a few words, and the text after it.
pub fn put_answer<O: Sink>(
    alloc: Global,
    verdict: &Verdict,
    rest: &str,
    out: &mut O,
) -> Result<(), WriteFault>
    ensures { OnOk result (O.taken out.new ≡ followed_by (O.taken out.old) (head_text verdict.now ++ rest.now)) }
{
    let mut text = head(alloc, verdict)?;
    text.push_str(rest)?;
    put_all(out, text.as_bytes())?;
    Ok(())
}
