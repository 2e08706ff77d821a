//! The progress of an audit.

/// The progress of an audit.
#[derive(Clone, Copy, Debug, PartialEq, Eq)]
pub struct Progress {
    /// The horizon, in nanoseconds since 1970: everything placed is at or before it.
    pub horizon: u64,
    /// The number of sightings that are placed.
    pub placed: u32,
    /// The number of lanes.
    pub lanes: u32,
    /// The number of departures that acts sent and that haven't left.
    pub owed: u32,
}
