//! Words of a POSIX shell's command lines, as text.
#![tactic(auto)]

mod word;
mod words;

pub use word::push_word;
pub use words::push_words;
