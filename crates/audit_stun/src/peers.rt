//! The peers that a message names.

ghost use Rattle.std.specs.Prelude.{◌≡◌};
ghost use Rattle.audit_stun.specs.Counted.{values_of};

use crate::counted::Counted;
use crate::numbers::attribute::XOR_PEER_ADDRESS;
use std::marker::Model;

/// The values of the XOR-PEER-ADDRESS attributes that count, in order (RFC 8656, section 18.3).
/// Contracts see those that are still to come.
#[derive(Debug, Drop)]
pub struct Peers<'a> {
    counted: Counted<'a>,
}

impl<'a> Model for Peers<'a> {
    ghost use Rattle.std.specs.Prelude.{List, ℕ};
    ghost use Rattle.audit_stun.specs.Counted.{values_of};
    ghost use Rattle.audit_stun.specs.Left.{counted_left};
    ghost use Rattle.audit_stun.specs.declared.numbers.attribute.TheConstants.{XOR_PEER_ADDRESS};

    ghost Value = { List (List ℕ) };

    ghost view = { λ p. values_of XOR_PEER_ADDRESS (counted_left p.counted) };
}

impl<'a> Peers<'a> {
    ghost use Rattle.audit_stun.specs.Left.{counted_left};

    pub(crate) fn new(counted: Counted<'a>) -> Self
        ensures { result ≡ values_of XOR_PEER_ADDRESS (counted_left counted.entry) }
    {
        Peers { counted }
    }
}

impl<'a> Iterator for Peers<'a> {
    ghost use Rattle.std.specs.Iterator.{YieldsFirstRef, item_count};

    type Item = &'a [u8];

    ghost next_gives = { YieldsFirstRef (λ p. p) };

    ghost remaining = { item_count (λ p. p) };

    fn next(&mut self) -> Option<&'a [u8]> {
        while let Some(attribute) = self.counted.next() {
            if attribute.kind == XOR_PEER_ADDRESS {
                return Some(attribute.value);
            }
        }
        None
    }
}
