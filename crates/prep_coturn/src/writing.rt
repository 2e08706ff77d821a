//! A policy as a text.

ghost use Rattle.std.specs.Prelude.{◌≡◌, ◌++◌, string_bytes, IfOk, OnOk};
ghost use Rattle.std.specs.List.{flat_map};
ghost use Rattle.prep_coturn.specs.PolicyLines.{text_of, listen_line, relay_line};

use crate::plan::Plan;
use audit_model::{Addr, PortRange};
use std::alloc::{AllocError, Global};
use std::fmt::Write;

/// The text of a policy: its heading, and a line for each listen address and relay range, in order.
pub fn policy_text(alloc: Global, plan: &Plan) -> Result<String, AllocError>
    ensures { IfOk result (λ text. string_bytes text ≡ text_of plan.now) }
{
    let mut text = String::from_str(alloc, "turnaudit-policy 1\n")?;
    push_listens(&mut text, plan.listens.as_slice())?;
    push_relays(&mut text, plan.relays.as_slice())?;
    Ok(text)
}

fn push_listens(text: &mut String, listens: &[Addr]) -> Result<(), AllocError>
    ensures { OnOk result (string_bytes text.new ≡ string_bytes text.old ++ flat_map listen_line listens.now) }
{
    for addr in listens {
        push_listen(text, *addr)?;
    }
    Ok(())
}

fn push_relays(text: &mut String, relays: &[PortRange]) -> Result<(), AllocError>
    ensures { OnOk result (string_bytes text.new ≡ string_bytes text.old ++ flat_map relay_line relays.now) }
{
    for range in relays {
        push_relay(text, *range)?;
    }
    Ok(())
}

fn push_listen(text: &mut String, addr: Addr) -> Result<(), AllocError>
    ensures { OnOk result (string_bytes text.new ≡ string_bytes text.old ++ listen_line addr) }
{
    text.push_str("listen ")?;
    write!(text, "{addr}")?;
    text.push_str("\n")?;
    Ok(())
}

fn push_relay(text: &mut String, range: PortRange) -> Result<(), AllocError>
    ensures { OnOk result (string_bytes text.new ≡ string_bytes text.old ++ relay_line range) }
{
    let first = Addr {
        ip: range.ip,
        port: range.low,
    };
    let last = range.high;
    text.push_str("relay ")?;
    write!(text, "{first}")?;
    text.push_str("-")?;
    write!(text, "{last}")?;
    text.push_str("\n")?;
    Ok(())
}
