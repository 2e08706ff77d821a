//! A message, and its fields.

ghost use Rattle.std.specs.Prelude.{◌≡◌, ◌⊎◌, option_copied, option_map, IfSome, take, drop};
ghost use Rattle.std.specs.Int.{w16, from_be_bytes};
ghost use Rattle.audit_stun.specs.Left.{counted_left};
ghost use Rattle.audit_stun.specs.Parts.{parts_of};
ghost use Rattle.audit_stun.specs.Counted.{counted, first_of, all_of};
ghost use Rattle.audit_stun.specs.Covered.{covered_of};
ghost use Rattle.audit_stun.specs.Ended.{IsCovered};

use crate::attribute::split_attribute;
use crate::class::{Class, class_in, method_in};
use crate::counted::Counted;
use crate::numbers::HEADER_LENGTH;
use crate::numbers::attribute::{MESSAGE_INTEGRITY, MESSAGE_INTEGRITY_SHA256, XOR_PEER_ADDRESS};
use crate::peers::Peers;
use std::marker::Model;

/// A message (RFC 8489, section 5). Contracts see it as its bytes, from which `parts_of` reads the
/// class, the method, the transaction id and the attributes.
#[derive(Debug, Drop)]
pub struct Message<'a> {
    pub(crate) bytes: &'a [u8],
}

impl<'a> Model for Message<'a> {
    ghost use Rattle.std.specs.Prelude.{List, ℕ};
    ghost use Rattle.audit_stun.specs.Message.{IsMessage};
    ghost use Rattle.audit_stun.specs.Parts.{parts_of};

    ghost Value = { List ℕ };

    ghost view = { λ m. m.bytes.now };

    ghost invariant = { λ m. IsMessage m.bytes.now (parts_of m.bytes.now) };
}

impl<'a> Message<'a> {
    fn message_type(&self) -> u16
        ensures { result ≡ from_be_bytes w16 (take 2 self.now) }
    {
        u16::from_be_bytes([self.bytes[0], self.bytes[1]])
    }

    #[tactic(auto, unfolding(crate::specs::Parts::parts_of))]
    pub fn class(&self) -> Class
        ensures { result ≡ (parts_of self.now).class }
    {
        class_in(self.message_type())
    }

    /// The method, which has twelve bits.
    #[tactic(auto, unfolding(crate::specs::Parts::parts_of))]
    pub fn method(&self) -> u16
        ensures { result ≡ (parts_of self.now).method }
    {
        method_in(self.message_type())
    }

    /// The transaction id.
    #[tactic(auto, unfolding(crate::specs::Parts::parts_of))]
    pub fn tid(&self) -> [u8; 12]
        ensures { result ≡ (parts_of self.now).tid }
    {
        let mut tid = [0; 12];
        tid.copy_from_slice(&self.bytes[8..20]);
        tid
    }

    /// The bytes of the attributes.
    fn body(&self) -> &'a [u8]
        ensures { result.now ≡ drop 20 self.now }
    {
        &self.bytes[HEADER_LENGTH..]
    }

    #[tactic(auto, unfolding(crate::specs::Parts::parts_of))]
    fn counted(&self) -> Counted<'a>
        ensures { counted_left result ≡ counted (parts_of self.now).attributes }
    {
        Counted::new(self.body())
    }

    /// The value of the first attribute of this type that counts. After MESSAGE-INTEGRITY only
    /// MESSAGE-INTEGRITY-SHA256 and FINGERPRINT count, and after MESSAGE-INTEGRITY-SHA256 only
    /// FINGERPRINT (RFC 8489, sections 14.5 and 14.6).
    #[tactic(auto, unfolding(crate::specs::Counted::first_of))]
    pub fn first(&self, kind: u16) -> Option<&'a [u8]>
        ensures { option_copied result ≡ first_of kind (parts_of self.now).attributes }
    {
        for attribute in self.counted() {
            if attribute.kind == kind {
                return Some(attribute.value);
            }
        }
        None
    }

    /// The values of all XOR-PEER-ADDRESS attributes that count, in order.
    #[tactic(auto, unfolding(crate::specs::Counted::all_of))]
    pub fn peers(&self) -> Peers<'a>
        ensures { result ≡ all_of XOR_PEER_ADDRESS (parts_of self.now).attributes }
    {
        Peers::new(self.counted())
    }

    /// The bytes that MESSAGE-INTEGRITY covers, if it counts: the first four bytes, with the length
    /// that the message would have if it ended with this attribute, and the bytes from there to the
    /// attribute. Then its value (RFC 8489, section 14.5).
    pub fn covered(&self) -> Option<([u8; 4], &'a [u8], &'a [u8])>
        ensures places { option_map (λ found. (found.0, found.1.now, found.2.now)) result
            ≡ covered_of MESSAGE_INTEGRITY self.now }
        // With the attribute at its end, the text is a message of its own.
        ensures ended { IfSome result
            (λ found. IsCovered MESSAGE_INTEGRITY self.now found.0 found.1.now found.2.now) }
    {
        self.covered_by(MESSAGE_INTEGRITY)
    }

    /// The bytes that MESSAGE-INTEGRITY-SHA256 covers, likewise (RFC 8489, section 14.6). A
    /// MESSAGE-INTEGRITY before it is covered too.
    pub fn covered256(&self) -> Option<([u8; 4], &'a [u8], &'a [u8])>
        ensures places { option_map (λ found. (found.0, found.1.now, found.2.now)) result
            ≡ covered_of MESSAGE_INTEGRITY_SHA256 self.now }
        ensures ended { IfSome result
            (λ found. IsCovered MESSAGE_INTEGRITY_SHA256 self.now found.0 found.1.now found.2.now) }
    {
        self.covered_by(MESSAGE_INTEGRITY_SHA256)
    }

    /// The bytes that the integrity attribute of this type covers.
    #[tactic(auto, unfolding(crate::specs::Covered::covered_of))]
    fn covered_by(&self, kind: u16) -> Option<([u8; 4], &'a [u8], &'a [u8])>
        requires { (kind ≡ MESSAGE_INTEGRITY) ⊎ (kind ≡ MESSAGE_INTEGRITY_SHA256) }
        ensures places { option_map (λ found. (found.0, found.1.now, found.2.now)) result
            ≡ covered_of kind self.now }
        ensures ended { IfSome result
            (λ found. IsCovered kind self.now found.0 found.1.now found.2.now) }
    {
        let mut rest = self.body();
        while let Some((attribute, after)) = split_attribute(rest) {
            if attribute.kind == kind {
                let start = self.bytes.len() - rest.len();
                let length = self.bytes.len() - after.len() - HEADER_LENGTH;
                let [high, low] = (length as u16).to_be_bytes();
                let head = [self.bytes[0], self.bytes[1], high, low];
                return Some((head, &self.bytes[4..start], attribute.value));
            }
            // After it neither attribute counts.
            if attribute.kind == MESSAGE_INTEGRITY_SHA256 {
                return None;
            }
            rest = after;
        }
        None
    }
}
