//! Iterates over the attributes of a message that count.

ghost use Rattle.std.specs.Prelude.{◌≡◌, ◌∷◌, IsTrue, false};
ghost use Rattle.std.specs.Iterator.{YieldsFirstBy, item_count};
ghost use Rattle.audit_stun.specs.Parts.{attributes_in};
ghost use Rattle.audit_stun.specs.Counted.{counted};
ghost use Rattle.audit_stun.specs.Left.{counts_behind, passed_with};

use crate::attribute::{Attribute, split_attribute};
use crate::numbers::attribute::{FINGERPRINT, MESSAGE_INTEGRITY, MESSAGE_INTEGRITY_SHA256};

/// Which of the two integrity attributes, the last of those that count, came before.
#[derive(Clone, Copy, Debug)]
pub(crate) enum Passed {
    Neither,
    Integrity,
    IntegritySha256,
}

impl Passed {
    /// Whether an attribute of this type counts after it.
    fn counts(self, kind: u16) -> bool
        ensures { result ≡ counts_behind self kind }
    {
        match self {
            Passed::Neither => true,
            Passed::Integrity => kind == MESSAGE_INTEGRITY_SHA256 || kind == FINGERPRINT,
            Passed::IntegritySha256 => kind == FINGERPRINT,
        }
    }

    /// With an attribute of this type, which counts after it.
    fn with(self, kind: u16) -> Passed
        ensures { result ≡ passed_with self kind }
    {
        if kind == MESSAGE_INTEGRITY_SHA256 {
            Passed::IntegritySha256
        } else if kind == MESSAGE_INTEGRITY {
            Passed::Integrity
        } else {
            self
        }
    }
}

/// The attributes that count, in order: all up to an integrity attribute, and after it those that
/// may follow it.
#[derive(Debug, Drop)]
pub(crate) struct Counted<'a> {
    rest: &'a [u8],
    passed: Passed,
}

impl<'a> Counted<'a> {
    ghost use Rattle.audit_stun.specs.Left.{counted_left};

    /// Those of a message whose attributes are these bytes.
    pub(crate) fn new(attributes: &'a [u8]) -> Self
        ensures { counted_left result ≡ counted (attributes_in attributes.now) }
    {
        Counted {
            rest: attributes,
            passed: Passed::Neither,
        }
    }
}

impl<'a> Iterator for Counted<'a> {
    ghost use Rattle.std.specs.Iterator.{YieldsFirstBy, item_count};
    ghost use Rattle.audit_stun.specs.Left.{counted_left};
    ghost use Rattle.audit_stun.specs.Seen.{seen};

    type Item = Attribute<'a>;

    ghost next_gives = { YieldsFirstBy seen counted_left };

    ghost remaining = { item_count counted_left };

    fn next(&mut self) -> Option<Attribute<'a>> {
        while let Some((attribute, rest)) = split_attribute(self.rest) {
            self.rest = rest;
            if self.passed.counts(attribute.kind) {
                self.passed = self.passed.with(attribute.kind);
                return Some(attribute);
            }
        }
        None
    }
}
