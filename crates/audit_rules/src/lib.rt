//! The rules of one act of the server: whether it may send a departure for an arrival (RFC 8656,
//! RFC 8489).
#![tactic(auto)]

mod acting;
mod acts;
mod allocate;
mod binding;
mod change;
mod channel_bind;
mod channel_down;
mod channel_up;
mod credentials;
mod data;
mod effect;
mod error;
mod fault;
mod judging;
pub mod laws;
mod path;
mod permission;
mod purging;
mod refresh;
mod responses;
mod send;
mod table;
mod usable;
mod values;

pub use acting::act;
pub use acts::Act;
pub use credentials::CredRow;
pub use fault::ActFault;
pub use table::{Allocation, Channel, LaneTable};
