//! Texts for the explanation of a verdict. Bytes of captures are escaped if they would control a
//! terminal.
#![tactic(auto)]

mod address;
mod moment;
mod payload;
mod quoted;
mod reasons;
mod rule;
mod stun_words;

pub use address::Ip;
pub use moment::{Exactly, Seconds, Since, SinceShort, Utc};
pub use payload::{BytesAround, Datagram, FirstBytes};
pub use quoted::{Escaped, Quoted};
pub use reasons::refusal_reason;
pub use rule::{anchor, cause, code, expected, meaning};
pub use stun_words::{AttributeBytes, CodeWord, MethodWord, code_says};
