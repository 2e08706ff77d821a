//! Metrics in Prometheus' exposition format, version 0.0.4.

ghost use Rattle.std.specs.Prelude.{◌≡◌, ◌++◌, IfOk, OnOk, codes, decimal, string_bytes};
ghost use Rattle.watch_report.specs.Exposition.{heading, sample, seconds_text, label_byte, label_text, labelled, gauge, counter, seconds};

use std::alloc::{AllocError, Global};

/// The nanoseconds of a second.
const SECOND: u64 = 1_000_000_000;

/// Adds the two comments before a metric's values.
#[tactic(auto, unfolding(crate::specs::Exposition::heading))]
pub fn add_heading(
    alloc: Global,
    text: &mut Vec<u8>,
    name: &str,
    help: &str,
    kind: &str,
) -> Result<(), AllocError>
    ensures { OnOk result (text.new.items ≡ text.old.items ++ heading name.now help.now kind.now) }
{
    let lines = format!(in alloc; "# HELP {name} {help}\n# TYPE {name} {kind}\n")?;
    text.extend_from_slice(lines.as_bytes())
}

/// Adds a value without labels.
fn add_sample(alloc: Global, text: &mut Vec<u8>, name: &str, value: u64) -> Result<(), AllocError>
    ensures { OnOk result (text.new.items ≡ text.old.items ++ sample name.now (decimal value)) }
{
    let line = format!(in alloc; "{name} {value}\n")?;
    text.extend_from_slice(line.as_bytes())
}

/// Adds a byte of a label's value: a backslash, a quote and an LF are escaped.
fn add_label_byte(text: &mut Vec<u8>, byte: u8) -> Result<(), AllocError>
    ensures { OnOk result (text.new.items ≡ text.old.items ++ label_byte byte) }
{
    match byte {
        b'\\' => text.extend_from_slice(b"\\\\"),
        b'"' => text.extend_from_slice(b"\\\""),
        b'\n' => text.extend_from_slice(b"\\n"),
        _ => text.extend_from_slice(&[byte]),
    }
}

fn add_label_value(text: &mut Vec<u8>, value: &[u8]) -> Result<(), AllocError>
    ensures { OnOk result (text.new.items ≡ text.old.items ++ label_text value.now) }
{
    'bytes: for byte in value {
        add_label_byte(text, *byte)?;
    }
    Ok(())
}

/// Adds a value with one label.
#[tactic(auto, unfolding(crate::specs::Exposition::labelled))]
pub fn add_labelled(
    alloc: Global,
    text: &mut Vec<u8>,
    name: &str,
    label: &str,
    value: &str,
    number: u64,
) -> Result<(), AllocError>
    ensures { OnOk result (text.new.items ≡ text.old.items ++ labelled name.now label.now value.now number) }
{
    let front = format!(in alloc; "{name}{{{label}=\"")?;
    text.extend_from_slice(front.as_bytes())?;
    add_label_value(text, value.as_bytes())?;
    let end = format!(in alloc; "\"}} {number}\n")?;
    text.extend_from_slice(end.as_bytes())
}

/// Adds a metric that is a gauge.
#[tactic(auto, unfolding(crate::specs::Exposition::gauge))]
pub fn add_gauge(
    alloc: Global,
    text: &mut Vec<u8>,
    name: &str,
    help: &str,
    value: u64,
) -> Result<(), AllocError>
    ensures { OnOk result (text.new.items ≡ text.old.items ++ gauge name.now help.now value) }
{
    add_heading(alloc, text, name, help, "gauge")?;
    add_sample(alloc, text, name, value)
}

/// Adds a metric that is a counter.
#[tactic(auto, unfolding(crate::specs::Exposition::counter))]
pub fn add_counter(
    alloc: Global,
    text: &mut Vec<u8>,
    name: &str,
    help: &str,
    value: u64,
) -> Result<(), AllocError>
    ensures { OnOk result (text.new.items ≡ text.old.items ++ counter name.now help.now value) }
{
    add_heading(alloc, text, name, help, "counter")?;
    add_sample(alloc, text, name, value)
}

/// Formats nanoseconds in seconds, with nine digits after the point.
fn text_of_seconds(alloc: Global, nanoseconds: u64) -> Result<String, AllocError>
    ensures { IfOk result (λ text. string_bytes text ≡ seconds_text nanoseconds) }
{
    let whole = nanoseconds / SECOND;
    let rest = nanoseconds % SECOND;
    format!(in alloc; "{whole}.{rest:09}")
}

/// Adds a value of nanoseconds, in seconds.
fn add_seconds_sample(
    alloc: Global,
    text: &mut Vec<u8>,
    name: &str,
    nanoseconds: u64,
) -> Result<(), AllocError>
    ensures { OnOk result (text.new.items ≡ text.old.items ++ sample name.now (seconds_text nanoseconds)) }
{
    let value = text_of_seconds(alloc, nanoseconds)?;
    let line = format!(in alloc; "{name} {value}\n")?;
    text.extend_from_slice(line.as_bytes())
}

/// Adds a metric that is a gauge in seconds.
#[tactic(auto, unfolding(crate::specs::Exposition::seconds))]
pub fn add_seconds(
    alloc: Global,
    text: &mut Vec<u8>,
    name: &str,
    help: &str,
    nanoseconds: u64,
) -> Result<(), AllocError>
    ensures { OnOk result (text.new.items ≡ text.old.items ++ seconds name.now help.now nanoseconds) }
{
    add_heading(alloc, text, name, help, "gauge")?;
    add_seconds_sample(alloc, text, name, nanoseconds)
}
