//! A section header with only a comment (pcapng, sections 3.5 and 4.1).
#![tactic(auto)]

mod laws;
mod section;

pub use laws::{a_section_has_no_packet, a_section_has_the_comment};
pub use section::comment_section;
