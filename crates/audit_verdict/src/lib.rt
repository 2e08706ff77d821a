//! The definition of the verdict, and what it means: a lane passes exactly if it is a run of the
//! RFC 8656 server with its client alone, and a certificate conforms exactly if it explains the
//! captures by one run of that server. The crate has definitions and their consequences; no program
//! calls it.
#![tactic(auto)]

pub mod laws;
