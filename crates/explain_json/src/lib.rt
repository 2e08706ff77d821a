//! Verdicts and their explanations as JSON: one object, with the facts of the text forms.
#![tactic(auto)]

mod account;
mod answer;
mod events;
mod lanes;
mod lease;
mod object;
mod sighting;

pub use account::write_account;
pub use answer::{Captured, answer_text, write_captured};
pub use events::write_events;
pub use lanes::{write_lane, write_lanes, write_no_lanes};
pub use object::{List, Object};
