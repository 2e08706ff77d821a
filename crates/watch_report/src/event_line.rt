//! The lines of events.

ghost use Rattle.std.specs.Prelude.{◌≡◌, ◌++◌, ℕ, List, true, IfOk, IfErr, OnOk, codes, string_bytes};
ghost use Rattle.audit_model.specs.Sink.{followed_by, raised_by, IsFollowedByFront};
ghost use Rattle.audit_model.specs.declared.write_fault.WriteFault.TheVariants as WriteFault;
ghost use Rattle.serde_json.specs.View.{members_view};
ghost use Rattle.watch_report.specs.Ascii.{is_printable};
ghost use Rattle.watch_report.specs.EventLine.{IsEventLine, with_rule};

use crate::event::{Breach, BreachReason, Claim, Endpoint, Event, FramePlace, Gap, Unread};
use crate::object::Object;
use audit_model::{Addr, Sink, WriteFault, put_all};
use audit_report::rule_text;
use explain_text::Ip;
use std::alloc::{AllocError, Global};

/// Adds an address, as `198.51.100.7:40000`.
fn add_address(
    alloc: Global,
    object: &mut Object,
    key: &str,
    address: Addr,
) -> Result<(), AllocError>
    requires { is_printable key.now ≡ true }
{
    let text = format!(in alloc; "{address}")?;
    object.bytes(key, text.as_bytes())
}

/// Adds an end of a packet, with its port if that is known.
fn add_endpoint(
    alloc: Global,
    object: &mut Object,
    key: &str,
    endpoint: Endpoint,
) -> Result<(), AllocError>
    requires { is_printable key.now ≡ true }
{
    match endpoint {
        Endpoint::Ip(ip) => {
            let address = Ip { ip };
            let text = format!(in alloc; "{address}")?;
            object.bytes(key, text.as_bytes())
        }
        Endpoint::Address(address) => add_address(alloc, object, key, address),
    }
}

/// Adds a file and a frame of it.
fn add_place(object: &mut Object, place: FramePlace<'_>) -> Result<(), AllocError> {
    object.bytes("capture", place.capture)?;
    match place.frame {
        Some(frame) => object.number("frame", frame),
        None => object.nothing("frame"),
    }
}

/// Adds the client's addresses; null for what isn't known.
fn add_client(alloc: Global, object: &mut Object, breach: &Breach<'_>) -> Result<(), AllocError> {
    match breach.pair {
        Some(pair) => {
            add_address(alloc, object, "client", pair.client)?;
            add_address(alloc, object, "listen", pair.listen)?;
        }
        None => {
            object.nothing("client")?;
            object.nothing("listen")?;
        }
    }
    match breach.relayed {
        Some(relayed) => add_address(alloc, object, "relayed", relayed),
        None => object.nothing("relayed"),
    }
}

/// Adds the name of a refusal; null for a rule.
fn add_refusal(object: &mut Object, reason: BreachReason) -> Result<(), AllocError> {
    match reason {
        BreachReason::Rule(_) => object.nothing("refusal"),
        other => object.bytes("refusal", other.label().as_bytes()),
    }
}

/// Sets a breach's rule, as reports name it; null for another refusal.
fn set_rule(object: &mut Object, event: &Event<'_>) -> Result<(), AllocError>
    ensures { OnOk result (members_view object.new.members.entries ≡ with_rule event.now (members_view object.old.members.entries)) }
{
    match event {
        Event::Breach(breach) => match breach.reason {
            BreachReason::Rule(rule) => object.word("rule", rule_text(rule)),
            _ => object.nothing("rule"),
        },
        _ => Ok(()),
    }
}

fn add_breach(alloc: Global, object: &mut Object, breach: &Breach<'_>) -> Result<(), AllocError> {
    add_refusal(object, breach.reason)?;
    object.nanoseconds("moment", breach.moment)?;
    object.utc("moment_utc", breach.moment)?;
    object.number("interface", u64::from(breach.sight.iface))?;
    object.number("index", u64::from(breach.sight.index))?;
    add_place(object, breach.place)?;
    add_client(alloc, object, breach)
}

fn add_gap(object: &mut Object, gap: &Gap<'_>) -> Result<(), AllocError> {
    object.bytes("from_capture", gap.from)?;
    match gap.to {
        Some(to) => object.bytes("to_capture", to)?,
        None => object.nothing("to_capture")?,
    }
    object.bytes("reason", gap.reason.text().as_bytes())
}

fn add_unread(alloc: Global, object: &mut Object, unread: &Unread<'_>) -> Result<(), AllocError> {
    object.bytes("reason", unread.reason.text().as_bytes())?;
    add_endpoint(alloc, object, "from", unread.from)?;
    add_endpoint(alloc, object, "to", unread.to)?;
    object.number("packets", unread.packets)?;
    add_place(object, unread.first)
}

/// Adds the members that only this kind of event has.
fn add_event(alloc: Global, object: &mut Object, event: &Event<'_>) -> Result<(), AllocError> {
    match event {
        Event::Claim => object.word("verdict", "conforming so far"),
        Event::End => object.word("verdict", "conforming"),
        Event::Breach(breach) => add_breach(alloc, object, breach),
        Event::Gap(gap) => add_gap(object, gap),
        Event::Checkpoint(file) => object.bytes("file", file),
        Event::Unread(unread) => add_unread(alloc, object, unread),
    }
}

/// The line. `event`, `begin`, `up_to` and a breach's `rule` are right, whatever was set before.
fn event_line(alloc: Global, claim: Claim, event: &Event<'_>) -> Result<String, AllocError>
    ensures { IfOk result (λ line. IsEventLine claim event.now (string_bytes line)) }
{
    let mut object = Object::new(alloc);
    object.word("schema", "turnwatch/1")?;
    object.utc("begin_utc", claim.begin)?;
    object.utc("up_to_utc", claim.up_to)?;
    add_event(alloc, &mut object, event)?;
    set_rule(&mut object, event)?;
    object.word("event", event.name())?;
    object.nanoseconds("begin", claim.begin)?;
    object.nanoseconds("up_to", claim.up_to)?;
    object.to_line()
}

/// Writes the line of an event. After F1 a prefix of it has been written, after F2 nothing has.
pub fn write_event<W: Sink>(
    alloc: Global,
    claim: Claim,
    event: &Event<'_>,
    out: &mut W,
) -> Result<(), WriteFault>
    ensures ok { OnOk result ((line : List ℕ) × IsEventLine claim event.now line × (W.taken out.new ≡ followed_by (W.taken out.old) line)) }
    ensures kept { OnOk result (W.failures out.new ≡ W.failures out.old) }
    ensures device { IfErr result (λ fault. fault ≡ WriteFault.Device → W.failures out.new ≡ raised_by (W.failures out.old) 1) }
    ensures front { IfErr result (λ fault. fault ≡ WriteFault.Device → (line : List ℕ) × IsEventLine claim event.now line × IsFollowedByFront (W.taken out.old) line (W.taken out.new)) }
    ensures memory { IfErr result (λ fault. fault ≡ WriteFault.Memory → (W.taken out.new ≡ W.taken out.old) × (W.failures out.new ≡ W.failures out.old)) }
{
    let line = event_line(alloc, claim, event)?;
    put_all(out, line.as_bytes())?;
    Ok(())
}
