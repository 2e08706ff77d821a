//! Names of interfaces.

use std::fmt;

/// The number of interface numbers for each capture.
const INTERFACES: u32 = 64;

/// An interface, by its number in the policy and in reports; for captures after the first one also
/// by its number in the capture.
#[derive(Clone, Copy, Drop)]
pub(crate) struct InterfaceName(pub(crate) u32);

impl fmt::Display for InterfaceName {
    fn fmt<W: fmt::Write>(&self, f: &mut fmt::Formatter<W>) -> fmt::Result {
        let number = self.0;
        let capture = number / INTERFACES;
        if capture == 0 {
            return write!(f, "interface {number}");
        }
        let there = number % INTERFACES;
        write!(
            f,
            "interface {number} (interface {there} of capture {capture}, both from 0)"
        )
    }
}
