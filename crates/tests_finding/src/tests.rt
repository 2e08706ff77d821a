//! Captures of about ten datagrams, each of which needs one constraint, one plan or another part of
//! the passes.

mod building;
mod choices;
mod constraints;
mod datagrams;
mod plans;
mod turns;
