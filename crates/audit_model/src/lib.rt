//! The types that all of turnaudit uses, and the policy text.
#![tactic(auto)]

mod address;
mod certificate;
mod event;
mod extension;
mod lane_pairs;
mod listed;
mod pair;
mod payload;
mod policy;
mod policy_fault;
mod policy_reader;
mod policy_text;
mod rule;
mod sighting;
mod sink;
mod verdict;
mod write_fault;

pub use address::{Addr, read_ip, read_port};
pub use certificate::{
    CertDrop, CertLane, CertSkew, Certificate, MAX_EVENTS, MAX_LANES, MAX_SKEWS,
};
pub use event::{At, Event, Key};
pub use extension::Extension;
pub use lane_pairs::LanePairs;
pub use listed::Listed;
pub use pair::Pair;
pub use payload::Payload;
pub use policy::{InterfaceSkew, Policy, PortRange};
pub use policy_fault::{PolicyFault, PolicyFaultKind};
pub use policy_reader::{PolicyReader, read_policy};
pub use policy_text::PolicyDraft;
pub use rule::Rule;
pub use sighting::{Side, SightId, Sighting, nanoseconds, window};
pub use sink::{Sink, SinkFailed, put_all};
pub use verdict::{Breach, Tenancy, Verdict};
pub use write_fault::WriteFault;
