//! The numbers of an audit, for Prometheus.

/// How many breaches of a rule there were.
#[derive(Clone, Copy, Debug)]
pub struct BreachCount<'a> {
    /// As `BreachReason::label` has it.
    pub rule: &'a str,
    pub count: u64,
}

/// The numbers of an audit. Moments are nanoseconds since 1970.
#[derive(Clone, Copy, Debug)]
pub struct Metrics<'a> {
    /// Whether all that was captured since the claim's begin conforms so far.
    pub conforming: bool,
    pub claim_begin: u64,
    pub judged_up_to: u64,
    /// From the moment judged up to until the newest captured datagram, in nanoseconds.
    pub lag: u64,
    /// Judged datagrams between clients and the server.
    pub client_datagrams: u64,
    /// Judged datagrams between the server and peers.
    pub peer_datagrams: u64,
    /// Bytes of application data in relayed datagrams.
    pub relayed_bytes: u64,
    pub allocations: u64,
    pub permissions: u64,
    pub channels: u64,
    /// Arrivals on which the server may still act.
    pub waiting_arrivals: u64,
    /// Departures of acts that have not left yet.
    pub owed_departures: u64,
    /// One for each rule, each rule once.
    pub breaches: &'a [BreachCount<'a>],
    pub gaps: u64,
    pub epochs: u64,
    pub resident_memory: u64,
    /// When the last checkpoint was written; `None` if none was.
    pub checkpoint: Option<u64>,
}
