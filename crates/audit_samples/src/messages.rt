//! STUN messages and ChannelData in their wire format.

ghost use Rattle.std.specs.Prelude.{◌≡◌, ◌+◌, ◌<◌, ◌++◌, ◌⊎◌, [], length, IfOk, OnOk, IfErr};
ghost use Rattle.std.specs.Int.{w16, to_be_bytes};
ghost use Rattle.audit_samples.specs.declared.build_fault.BuildFault.TheVariants.{Memory, TooLong};
ghost use Rattle.audit_samples.specs.Layout.{type_of, xor_address_bytes, attribute_bytes};

use crate::build_fault::BuildFault;
use crate::sizes::{two_bytes, zeros_after};
use audit_keys::hmac_sha1;
use audit_model::Addr;
use audit_stun::Class;
use audit_stun::numbers::attribute::{MESSAGE_INTEGRITY, NONCE, REALM, USERNAME};
use audit_stun::numbers::{FAMILY_IPV4, MAGIC_COOKIE};
use std::alloc::Global;

/// The size of a MESSAGE-INTEGRITY with its type and its length, in bytes.
const INTEGRITY_LENGTH: usize = 24;

/// The class and the method in fourteen bits (RFC 8489, section 5). Only the lowest twelve bits of
/// the method count.
fn message_type(class: Class, method: u16) -> u16
    ensures { result ≡ type_of class method }
{
    let (high, middle, low) = (method / 128 % 32, method / 16 % 8, method % 16);
    match class {
        Class::Request => high * 512 + middle * 32 + low,
        Class::Indication => high * 512 + middle * 32 + low + 0x0010,
        Class::Success => high * 512 + middle * 32 + low + 0x0100,
        Class::Error => high * 512 + middle * 32 + low + 0x0110,
    }
}

/// The value of an XOR-MAPPED-ADDRESS, XOR-PEER-ADDRESS or XOR-RELAYED-ADDRESS.
fn xor_address(addr: Addr) -> [u8; 8]
    ensures { result ≡ xor_address_bytes addr }
{
    let [port_high, port_low] = (addr.port ^ (MAGIC_COOKIE >> 16) as u16).to_be_bytes();
    let [a, b, c, d] = (addr.ip ^ MAGIC_COOKIE).to_be_bytes();
    [0, FAMILY_IPV4, port_high, port_low, a, b, c, d]
}

/// Adds an attribute, its value padded with zeros to a multiple of four.
fn push_attribute(out: &mut Vec<u8>, kind: u16, value: &[u8]) -> Result<(), BuildFault>
    ensures ok { OnOk result (out.new.items ≡ out.old.items ++ attribute_bytes kind value.now) }
    ensures err { IfErr result (λ fault. fault ≡ TooLong → 65535 < length value.now) }
{
    let length = two_bytes(value.len())?;
    out.extend_from_slice(&kind.to_be_bytes())?;
    out.extend_from_slice(&length.to_be_bytes())?;
    out.extend_from_slice(value)?;
    out.extend_from_slice(zeros_after(value.len()))?;
    Ok(())
}

/// A STUN message that is being built.
#[derive(Drop)]
pub struct MessageBuilder {
    message_type: u16,
    transaction: [u8; 12],
    attributes: Vec<u8>,
}

impl MessageBuilder {
    ghost use Rattle.audit_samples.specs.Messages.{message_bytes, size, IsMessage, IsExtended, integrity_bytes};
    ghost use Rattle.audit_stun.specs.declared.numbers.attribute.TheConstants.{USERNAME, REALM, NONCE};

    /// A message without attributes. It takes no memory.
    pub fn new(alloc: Global, class: Class, method: u16, transaction: [u8; 12]) -> MessageBuilder
        ensures { IsMessage result (type_of class method) transaction [] }
    {
        MessageBuilder {
            message_type: message_type(class, method),
            transaction,
            attributes: Vec::new(alloc),
        }
    }

    /// With one more attribute, its value padded with zeros. `TooLong` for a value of over 65,535
    /// bytes.
    pub fn with(mut self, kind: u16, value: &[u8]) -> Result<MessageBuilder, BuildFault>
        ensures ok { IfOk result (λ builder. IsExtended self (attribute_bytes kind value.now) builder) }
        ensures err { IfErr result (λ fault. fault ≡ TooLong → 65535 < length value.now) }
    {
        push_attribute(&mut self.attributes, kind, value)?;
        Ok(self)
    }

    /// With one more attribute that has an address: XOR-MAPPED-ADDRESS, XOR-PEER-ADDRESS or
    /// XOR-RELAYED-ADDRESS.
    pub fn with_address(self, kind: u16, addr: Addr) -> Result<MessageBuilder, BuildFault>
        ensures ok { IfOk result (λ builder. IsExtended self (attribute_bytes kind (xor_address_bytes addr)) builder) }
        ensures err { IfErr result (λ fault. fault ≡ Memory) }
    {
        self.with(kind, &xor_address(addr))
    }

    /// With USERNAME, REALM and NONCE. `TooLong` for a value of over 65,535 bytes.
    pub fn with_user(
        self,
        user: &[u8],
        realm: &[u8],
        nonce: &[u8],
    ) -> Result<MessageBuilder, BuildFault>
        ensures ok { IfOk result (λ builder. IsExtended self
            (attribute_bytes USERNAME user.now ++ attribute_bytes REALM realm.now ++ attribute_bytes NONCE nonce.now) builder) }
        ensures err { IfErr result (λ fault. fault ≡ TooLong → (65535 < length user.now) ⊎ (65535 < length realm.now) ⊎ (65535 < length nonce.now)) }
    {
        self.with(USERNAME, user)?
            .with(REALM, realm)?
            .with(NONCE, nonce)
    }

    /// With the MESSAGE-INTEGRITY with this key over the message so far (RFC 8489, section 14.5).
    /// `TooLong` for attributes of over 65,511 bytes.
    pub fn signed(self, key: &[u8]) -> Result<MessageBuilder, BuildFault>
        ensures ok { IfOk result (λ builder. IsExtended self (integrity_bytes key.now self) builder) }
        ensures err { IfErr result (λ fault. fault ≡ TooLong → 65511 < size self) }
    {
        let length = two_bytes(self.attributes.len().saturating_add(INTEGRITY_LENGTH))?;
        let value = hmac_sha1(
            key,
            &[
                self.message_type.to_be_bytes().as_slice(),
                length.to_be_bytes().as_slice(),
                MAGIC_COOKIE.to_be_bytes().as_slice(),
                self.transaction.as_slice(),
                self.attributes.as_slice(),
            ],
        );
        self.with(MESSAGE_INTEGRITY, &value)
    }

    /// The bytes of the message. `TooLong` for attributes of over 65,535 bytes.
    pub fn payload(&self, alloc: Global) -> Result<Vec<u8>, BuildFault>
        ensures ok { IfOk result (λ payload. payload.items ≡ message_bytes self.now) }
        ensures err { IfErr result (λ fault. fault ≡ TooLong → 65535 < size self.now) }
    {
        let length = two_bytes(self.attributes.len())?;
        let mut out = Vec::from_slice(alloc, &self.message_type.to_be_bytes())?;
        out.extend_from_slice(&length.to_be_bytes())?;
        out.extend_from_slice(&MAGIC_COOKIE.to_be_bytes())?;
        out.extend_from_slice(&self.transaction)?;
        out.extend_from_slice(self.attributes.as_slice())?;
        Ok(out)
    }
}

/// The bytes of ChannelData without padding (RFC 8656, section 12.4). `TooLong` for over 65,535
/// bytes of data.
pub fn channel_data(alloc: Global, number: u16, body: &[u8]) -> Result<Vec<u8>, BuildFault>
    ensures ok { IfOk result (λ payload. payload.items ≡ to_be_bytes w16 number ++ to_be_bytes w16 (length body.now) ++ body.now) }
    ensures err { IfErr result (λ fault. fault ≡ TooLong → 65535 < length body.now) }
{
    let length = two_bytes(body.len())?;
    let mut out = Vec::from_slice(alloc, &number.to_be_bytes())?;
    out.extend_from_slice(&length.to_be_bytes())?;
    out.extend_from_slice(body)?;
    Ok(out)
}
