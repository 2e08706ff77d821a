//! Properties of every certificate that conforms, and of every run that explains captures. No
//! program calls these.

pub use audit_whole::laws::{held, written};
