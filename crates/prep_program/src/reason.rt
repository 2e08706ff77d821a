//! The meaning of a refusal's code, in words.

use crate::stop::Stop;
use explain_text::refusal_reason;
use prep_cut::CutFault;
use prep_fragments::ReassembleFault;
use prep_join::JoinFault;
use prep_translate::TranslateFault;
use std::fmt;

/// The end of a refusal's line: a colon and the meaning of its code; nothing if it has no code.
#[derive(Clone, Copy)]
pub struct Reason<'a> {
    pub stop: &'a Stop,
}

impl fmt::Display for Reason<'_> {
    fn fmt<W: fmt::Write>(&self, f: &mut fmt::Formatter<W>) -> fmt::Result {
        match code_of(self.stop) {
            Some(code) => {
                let words = refusal_reason(code);
                write!(f, ": {words}")
            }
            None => Ok(()),
        }
    }
}

/// The code of a refused policy or capture.
fn code_of(stop: &Stop) -> Option<&'static str> {
    let fault = match stop {
        Stop::Policy(fault) => return Some(fault.kind.code()),
        Stop::Capture(refused) => match refused.fault {
            JoinFault::Capture(fault) => fault,
            _ => return None,
        },
        Stop::Cut(refused) => match refused.fault {
            CutFault::Capture(fault) => fault,
            CutFault::SectionLength => return None,
        },
        Stop::Translate(refused) => match refused.fault {
            TranslateFault::Capture(fault) => fault,
            TranslateFault::Datagram(_) => return None,
        },
        Stop::Reassemble(refused) => match refused.fault {
            ReassembleFault::Capture(fault) => fault,
            _ => return None,
        },
        _ => return None,
    };
    Some(fault.code())
}
