//! Facts about the server's clients in captures: who was granted which relayed address, for which
//! client data is that the server sends, and how many requests have a response. Texts for people
//! depend on them; no verdict does.
#![tactic(auto)]

mod answered;
mod grants;
mod owners;

pub use answered::{Answered, count_answered};
pub use grants::{Grant, Grants};
pub use owners::{Misdelivery, Owners, has_relayed, is_dtls, is_response};
