//! The texts that an audit of a ring of captures writes: JSON lines, and metrics for Prometheus.
#![tactic(auto)]

mod ascii;
mod event;
mod event_line;
mod exposition;
mod families;
mod metrics;
mod object;

pub use event::{
    Breach, BreachReason, Claim, Endpoint, Event, FramePlace, Gap, GapReason, Unread, UnreadReason,
};
pub use event_line::write_event;
pub use exposition::write_metrics;
pub use metrics::{BreachCount, Metrics};
