//! The page that is read before an audit: the contents of captures, and advice. Its lines about the
//! policy's addresses are proved.
#![tactic(auto)]

mod advice;
mod advice_text;
mod advising;
mod answering;
mod clock;
mod crossings;
mod ends;
mod granted_address;
mod granting;
mod guess;
mod interface;
mod interface_name;
mod ip;
mod losses;
mod needs;
mod page;
mod passed;
mod relaying;
mod responses;
mod survey;
mod surveyor;
mod unjudged;
mod unknown_addresses;

pub use advice::{Advice, Ended, Relaying};
pub use advising::advice_of;
pub use granted_address::Alias;
pub use guess::{Guess, GuessFault, guess_policy};
pub use losses::Losses;
pub use needs::{Announced, Needs, Restart, needs_of};
pub use page::page_of;
pub use survey::{Closed, Survey};
pub use surveyor::Surveyor;
