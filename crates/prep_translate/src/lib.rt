//! Translates captures from the inner side of a one-to-one address translation to its outer side.
#![tactic(auto)]

mod fault;
mod laws;
mod packet;
mod renaming;
mod tally;
mod translation;
mod translator;

pub use fault::{Refused, RenamingFault, TranslateFault, Untranslatable};
pub use laws::{keeps_others, renames_alone};
pub use packet::translate;
pub use renaming::Renaming;
pub use tally::{Ends, Moved, Tally};
pub use translation::Translation;
pub use translator::Translator;
