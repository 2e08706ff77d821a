//! Makes a policy from coturn's configuration.
#![tactic(auto)]

mod class;
mod conf;
mod fault;
mod notes;
mod plan;
mod reading;
mod rows;
mod setting;
mod writing;

pub use conf::{Conf, External, Renamed};
pub use fault::ConfFault;
pub use plan::{Options, Plan, plan_of};
pub use reading::{Prepared, prepare};
pub use rows::{Row, rows_of};
pub use setting::{Setting, Unjudged};
pub use writing::policy_text;
