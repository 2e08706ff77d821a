//! A cut of a run as data: what has to be kept of a server's state so that its run can go on later,
//! by another program or after a restart. No map or thread is in it, so it is the same each time.
#![tactic(auto)]

mod carried;
mod rebasing;

pub use carried::{Came, Carried, Client, Interface};
pub use rebasing::RebaseError;
