//! The lines of addresses that send responses.

ghost use Rattle.std.specs.Prelude.{◌≡◌, ◌++◌, IfOk, OnOk, string_bytes};
ghost use Rattle.std.specs.List.{flat_map};
ghost use Rattle.prep_look.specs.PolicyLines.{answer_by, answer_line, answers_text, ending, silent_line};

use crate::survey::Answers;
use audit_model::{Addr, Policy};
use std::alloc::{AllocError, Global};
use std::collections::BTreeMap;

/// The end of such a line.
fn ending(listens: bool) -> &'static str
    ensures { result.now ≡ ending listens }
{
    if listens { "\n" } else { " not-in-policy\n" }
}

/// The line of an address that sends responses.
fn line_of_answers(
    alloc: Global,
    addr: Addr,
    answers: &Answers,
    listens: bool,
) -> Result<String, AllocError>
    ensures { IfOk result (λ line. string_bytes line ≡ answer_by addr answers.now listens) }
{
    let count = answers
        .binding
        .saturating_add(answers.allocate)
        .saturating_add(answers.other);
    let ending = ending(listens);
    format!(in alloc; "answers {addr} {count}{ending}")
}

/// Adds the line of an address that sends responses, if it is one of the service or grants
/// allocations: others that respond to a Binding are peers.
fn push_answers(
    alloc: Global,
    text: &mut String,
    addr: Addr,
    answers: &Answers,
    policy: &Policy,
) -> Result<(), AllocError>
    ensures { OnOk result (string_bytes text.new ≡ string_bytes text.old ++ answer_line policy.now addr answers.now) }
{
    let listens = policy.listens(addr);
    let is_own = policy.service_ip(addr.ip) && !policy.relays(addr);
    if listens || is_own || answers.allocate > 0 {
        text.push_str(line_of_answers(alloc, addr, answers, listens)?.as_str())?;
    }
    Ok(())
}

/// Adds the line of a listen address, if it sends no response.
fn push_silent(
    alloc: Global,
    text: &mut String,
    addr: Addr,
    answers: &BTreeMap<Addr, Answers>,
) -> Result<(), AllocError>
    ensures { OnOk result (string_bytes text.new ≡ string_bytes text.old ++ silent_line answers.now.entries addr) }
{
    if !answers.contains_key(&addr) {
        let line = format!(in alloc; "silent {addr}\n")?;
        text.push_str(line.as_str())?;
    }
    Ok(())
}

/// Adds the lines of the listen addresses that send no response.
fn push_all_silent(
    alloc: Global,
    text: &mut String,
    answers: &BTreeMap<Addr, Answers>,
    listen: &[Addr],
) -> Result<(), AllocError>
    ensures { OnOk result (string_bytes text.new ≡ string_bytes text.old ++ flat_map (silent_line answers.now.entries) listen.now) }
{
    for addr in listen {
        push_silent(alloc, text, *addr, answers)?;
    }
    Ok(())
}

/// The lines of all addresses that send responses, and of the listen addresses that don't.
pub(crate) fn lines_of_answers(
    alloc: Global,
    answers: &BTreeMap<Addr, Answers>,
    policy: &Policy,
) -> Result<String, AllocError>
    ensures { IfOk result (λ text. string_bytes text ≡ answers_text policy.now answers.now.entries) }
{
    let mut text = String::new(alloc);
    for (addr, responses) in answers.iter() {
        push_answers(alloc, &mut text, *addr, responses, policy)?;
    }
    push_all_silent(alloc, &mut text, answers, policy.listen.as_slice())?;
    Ok(text)
}
