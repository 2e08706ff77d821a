//! Proposes which packets are excluded, and by which line of the list. No guarantee depends on it:
//! `prep_cut` checks each proposal, keeps a packet that a line may not exclude, and counts the
//! others.
#![tactic(auto)]

mod addresses;
mod before;
mod carriers;
mod channels;
mod deciding;
mod dtls;
mod exchanged;
mod from_before;
mod groups;
mod hang_ups;
mod inner;
mod late;
mod lines;
mod links;
mod members;
mod numbering;
mod origin;
mod pairing;
mod peer_data;
mod pool;
mod proposals;
mod releases;
mod responses;
mod sheet;
mod speech;
mod state_before;
mod strays;
mod tenures;
mod unread;

pub use deciding::{decide, sort_out};
pub use exchanged::Exchanged;
pub use proposals::Proposed;
pub use sheet::Sheet;
