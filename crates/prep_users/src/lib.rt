//! The users of a TURN server, as lines of a credentials text: those that coturn's configuration
//! names, or those whose requests are signed with a password derived from a secret.
#![tactic(auto)]

mod account;
mod claim;
mod configured;
mod fault;
mod lines;
mod password;
mod reading;
mod roll;
mod scan;
mod settings;
mod shown;
mod standings;

pub use account::Account;
pub use claim::{Claim, Secret};
pub use configured::accounts_in;
pub use fault::{ConfiguredFault, UsersFault};
pub use lines::text_of;
pub use password::password_of;
pub use reading::{Wanted, wanted_of};
pub use roll::Roll;
pub use scan::Scan;
