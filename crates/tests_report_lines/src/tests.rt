//! The bytes of each kind of line and of a file of metrics.

mod events;
mod metrics;
mod narrow;
