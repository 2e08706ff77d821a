//! All metrics of an audit, in Prometheus' exposition format.

ghost use Rattle.std.specs.Prelude.{◌≡◌, ◌++◌, ℕ, List, IfOk, IfErr, OnOk, OnErr, flat_map};
ghost use Rattle.audit_model.specs.Sink.{followed_by, raised_by, IsFollowedByFront};
ghost use Rattle.audit_model.specs.declared.write_fault.WriteFault.TheVariants as WriteFault;
ghost use Rattle.watch_report.specs.Metrics.{number_of, claim_text, traffic_text, state_text, breach_text, events_text, checkpoint_text, process_text, metrics_text};

use crate::families::{add_counter, add_gauge, add_heading, add_labelled, add_seconds};
use crate::metrics::{BreachCount, Metrics};
use audit_model::{Sink, WriteFault, put_all};
use std::alloc::{AllocError, Global};

/// 1 for true, and 0 for false.
fn flag_number(flag: bool) -> u64
    ensures { result ≡ number_of flag }
{
    if flag { 1 } else { 0 }
}

#[tactic(auto, unfolding(crate::specs::Metrics::claim_text))]
fn add_claim(alloc: Global, text: &mut Vec<u8>, metrics: &Metrics<'_>) -> Result<(), AllocError>
    ensures { OnOk result (text.new.items ≡ text.old.items ++ claim_text metrics.now) }
{
    add_gauge(
        alloc,
        text,
        "turnwatch_conforming",
        "Whether all that was captured since the claim began conforms so far (1) or not (0).",
        flag_number(metrics.conforming),
    )?;
    add_seconds(
        alloc,
        text,
        "turnwatch_claim_begin_timestamp_seconds",
        "When the present claim began, by the captures, in seconds since 1970.",
        metrics.claim_begin,
    )?;
    add_seconds(
        alloc,
        text,
        "turnwatch_judged_up_to_timestamp_seconds",
        "The moment up to which all is judged, by the captures, in seconds since 1970.",
        metrics.judged_up_to,
    )?;
    add_seconds(
        alloc,
        text,
        "turnwatch_lag_seconds",
        "Time from the moment up to which all is judged until the newest captured datagram.",
        metrics.lag,
    )
}

#[tactic(auto, unfolding(crate::specs::Metrics::traffic_text))]
fn add_traffic(alloc: Global, text: &mut Vec<u8>, metrics: &Metrics<'_>) -> Result<(), AllocError>
    ensures { OnOk result (text.new.items ≡ text.old.items ++ traffic_text metrics.now) }
{
    let name = "turnwatch_datagrams_total";
    add_heading(
        alloc,
        text,
        name,
        "Judged datagrams between the server and clients, or peers.",
        "counter",
    )?;
    add_labelled(
        alloc,
        text,
        name,
        "side",
        "client",
        metrics.client_datagrams,
    )?;
    add_labelled(alloc, text, name, "side", "peer", metrics.peer_datagrams)?;
    add_counter(
        alloc,
        text,
        "turnwatch_relayed_bytes_total",
        "Bytes of application data that the server relayed.",
        metrics.relayed_bytes,
    )
}

#[tactic(auto, unfolding(crate::specs::Metrics::state_text))]
fn add_state(alloc: Global, text: &mut Vec<u8>, metrics: &Metrics<'_>) -> Result<(), AllocError>
    ensures { OnOk result (text.new.items ≡ text.old.items ++ state_text metrics.now) }
{
    add_gauge(
        alloc,
        text,
        "turnwatch_allocations",
        "Allocations that have not expired.",
        metrics.allocations,
    )?;
    add_gauge(
        alloc,
        text,
        "turnwatch_permissions",
        "Permissions that have not expired.",
        metrics.permissions,
    )?;
    add_gauge(
        alloc,
        text,
        "turnwatch_channels",
        "Channel bindings that have not expired.",
        metrics.channels,
    )?;
    add_gauge(
        alloc,
        text,
        "turnwatch_waiting_arrivals",
        "Datagrams that arrived and on which the server may still act.",
        metrics.waiting_arrivals,
    )?;
    add_gauge(
        alloc,
        text,
        "turnwatch_owed_departures",
        "Datagrams that the server sent by an act and that have not left yet.",
        metrics.owed_departures,
    )
}

#[tactic(auto, unfolding(crate::specs::Metrics::breach_text))]
fn add_breach(alloc: Global, text: &mut Vec<u8>, breach: &BreachCount<'_>) -> Result<(), AllocError>
    ensures { OnOk result (text.new.items ≡ text.old.items ++ breach_text breach.now) }
{
    let name = "turnwatch_breaches_total";
    add_labelled(alloc, text, name, "rule", breach.rule, breach.count)
}

fn add_breaches(
    alloc: Global,
    text: &mut Vec<u8>,
    breaches: &[BreachCount<'_>],
) -> Result<(), AllocError>
    ensures { OnOk result (text.new.items ≡ text.old.items ++ flat_map breach_text breaches.now) }
{
    'breaches: for breach in breaches {
        add_breach(alloc, text, breach)?;
    }
    Ok(())
}

#[tactic(auto, unfolding(crate::specs::Metrics::events_text))]
fn add_events(alloc: Global, text: &mut Vec<u8>, metrics: &Metrics<'_>) -> Result<(), AllocError>
    ensures { OnOk result (text.new.items ≡ text.old.items ++ events_text metrics.now) }
{
    add_heading(
        alloc,
        text,
        "turnwatch_breaches_total",
        "Breaches, by the violated rule.",
        "counter",
    )?;
    add_breaches(alloc, text, metrics.breaches)?;
    add_counter(
        alloc,
        text,
        "turnwatch_gaps_total",
        "Gaps in the ring, each of which ended a claim.",
        metrics.gaps,
    )?;
    add_counter(
        alloc,
        text,
        "turnwatch_epochs_total",
        "Epochs, after each of which what is not needed any more is forgotten.",
        metrics.epochs,
    )
}

#[tactic(auto, unfolding(crate::specs::Metrics::checkpoint_text))]
fn add_checkpoint(
    alloc: Global,
    text: &mut Vec<u8>,
    checkpoint: Option<u64>,
) -> Result<(), AllocError>
    ensures { OnOk result (text.new.items ≡ text.old.items ++ checkpoint_text checkpoint) }
{
    match checkpoint {
        Some(moment) => add_seconds(
            alloc,
            text,
            "turnwatch_checkpoint_timestamp_seconds",
            "When the last checkpoint was written, in seconds since 1970.",
            moment,
        ),
        None => Ok(()),
    }
}

#[tactic(auto, unfolding(crate::specs::Metrics::process_text))]
fn add_process(alloc: Global, text: &mut Vec<u8>, metrics: &Metrics<'_>) -> Result<(), AllocError>
    ensures { OnOk result (text.new.items ≡ text.old.items ++ process_text metrics.now) }
{
    add_gauge(
        alloc,
        text,
        "turnwatch_resident_memory_bytes",
        "Resident memory of the process.",
        metrics.resident_memory,
    )?;
    add_checkpoint(alloc, text, metrics.checkpoint)
}

/// Adds all metrics.
fn add_metrics(alloc: Global, text: &mut Vec<u8>, metrics: &Metrics<'_>) -> Result<(), AllocError>
    ensures { OnOk result (text.new.items ≡ text.old.items ++ metrics_text metrics.now) }
{
    add_claim(alloc, text, metrics)?;
    add_traffic(alloc, text, metrics)?;
    add_state(alloc, text, metrics)?;
    add_events(alloc, text, metrics)?;
    add_process(alloc, text, metrics)
}

/// Writes the metrics. After F1 a prefix of the text has been written, after F2 nothing has.
pub fn write_metrics<W: Sink>(
    alloc: Global,
    metrics: &Metrics<'_>,
    out: &mut W,
) -> Result<(), WriteFault>
    ensures ok { OnOk result (W.taken out.new ≡ followed_by (W.taken out.old) (metrics_text metrics.now)) }
    ensures front { OnErr result (IsFollowedByFront (W.taken out.old) (metrics_text metrics.now) (W.taken out.new)) }
    ensures kept { OnOk result (W.failures out.new ≡ W.failures out.old) }
    ensures device { IfErr result (λ fault. fault ≡ WriteFault.Device → W.failures out.new ≡ raised_by (W.failures out.old) 1) }
    ensures memory { IfErr result (λ fault. fault ≡ WriteFault.Memory → (W.taken out.new ≡ W.taken out.old) × (W.failures out.new ≡ W.failures out.old)) }
{
    let mut text = Vec::new(alloc);
    add_metrics(alloc, &mut text, metrics)?;
    put_all(out, &text)?;
    Ok(())
}
