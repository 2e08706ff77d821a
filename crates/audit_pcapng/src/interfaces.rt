//! The interfaces of a capture.

ghost use Rattle.std.specs.Prelude.{◌≡◌, ◌<◌, ◌≤◌, [], ◌∷◌, ◌++◌, length, slice_get, IfSome};

use crate::clock::Interface;
use crate::wire::MAX_INTERFACES;
use std::marker::Model;

/// The interfaces that a file has described so far, in order. Allocates no memory.
#[derive(Debug, Drop)]
pub struct Interfaces {
    slots: [Interface; MAX_INTERFACES],
    described: usize,
}

impl Model for Interfaces {
    ghost use Rattle.std.specs.Prelude.{◌≡◌, ◌≤◌, List, length, take};
    ghost use Rattle.audit_pcapng.specs.declared.clock.Interface.{Interface};

    ghost Value = { List Interface };

    ghost view = { λ interfaces. take interfaces.described interfaces.slots };

    ghost invariant = { λ interfaces. (interfaces.described ≤ 64) × (length interfaces.slots ≡ 64) };
}

impl Interfaces {
    pub fn new() -> Self
        ensures { result ≡ [] }
    {
        let unused = Interface {
            offset: 0,
            resolution: 0,
        };
        Interfaces {
            slots: [unused; MAX_INTERFACES],
            described: 0,
        }
    }

    pub fn len(&self) -> usize
        ensures count { result ≡ length self.now }
        ensures bound { result ≤ 64 }
    {
        self.described
    }

    pub fn get(&self, number: usize) -> Option<Interface>
        ensures value { result ≡ slice_get self.now number }
        ensures bound { IfSome result (λ _. number < 64) }
    {
        if number < self.described {
            Some(self.slots[number])
        } else {
            None
        }
    }

    pub fn push(&mut self, interface: Interface)
        requires { length self.old < 64 }
        ensures { self.new ≡ self.old ++ interface ∷ [] }
    {
        self.slots[self.described] = interface;
        self.described += 1;
    }
}
