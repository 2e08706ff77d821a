//! Texts for the contents of STUN messages.

use audit_stun::numbers::method;
use std::fmt;

/// The name of a method, as `Allocate`.
#[derive(Clone, Copy, Debug)]
pub struct MethodWord {
    pub method: u16,
}

impl fmt::Display for MethodWord {
    fn fmt<W: fmt::Write>(&self, f: &mut fmt::Formatter<W>) -> fmt::Result {
        let number = self.method;
        match number {
            method::BINDING => f.write_str("Binding"),
            method::ALLOCATE => f.write_str("Allocate"),
            method::REFRESH => f.write_str("Refresh"),
            method::SEND => f.write_str("Send"),
            method::DATA => f.write_str("Data"),
            method::CREATE_PERMISSION => f.write_str("CreatePermission"),
            method::CHANNEL_BIND => f.write_str("ChannelBind"),
            _ => write!(f, "method 0x{number:03X}"),
        }
    }
}

/// The meaning of an error code for the server's state (RFC 8489, section 9.2.4; RFC 8656, sections
/// 5, 7 and 8).
pub fn code_says(code: u16, is_allocate: bool) -> &'static str {
    match code {
        401 | 438 => "it tells REALM and NONCE, for the client to sign with",
        420 => "it tells UNKNOWN-ATTRIBUTES",
        437 => {
            if is_allocate {
                "the client has a usable allocation"
            } else {
                "the client has no allocation, or one that is over"
            }
        }
        441 => "the client has a usable allocation, which another user made",
        442 => "the Allocate asks for another transport than UDP",
        _ => "nothing that is asked of the server's state",
    }
}

/// An error code with its name, as `437 Allocation Mismatch`.
#[derive(Clone, Copy, Debug)]
pub struct CodeWord {
    pub code: u16,
}

impl fmt::Display for CodeWord {
    fn fmt<W: fmt::Write>(&self, f: &mut fmt::Formatter<W>) -> fmt::Result {
        let code = self.code;
        let name = match code {
            300 => " Try Alternate",
            400 => " Bad Request",
            401 => " Unauthenticated",
            403 => " Forbidden",
            420 => " Unknown Attribute",
            437 => " Allocation Mismatch",
            438 => " Stale Nonce",
            440 => " Address Family not Supported",
            441 => " Wrong Credentials",
            442 => " Unsupported Transport Protocol",
            443 => " Peer Address Family Mismatch",
            486 => " Allocation Quota Reached",
            500 => " Server Error",
            508 => " Insufficient Capacity",
            _ => "",
        };
        write!(f, "{code}{name}")
    }
}

/// The bytes of an attribute's value in hex, or that there is none; of more than 16 bytes the first
/// 16.
#[derive(Clone, Copy, Debug)]
pub struct AttributeBytes<'a> {
    pub value: Option<&'a [u8]>,
}

/// At most this number of bytes is written.
const MOST: usize = 16;

impl fmt::Display for AttributeBytes<'_> {
    fn fmt<W: fmt::Write>(&self, f: &mut fmt::Formatter<W>) -> fmt::Result {
        let Some(value) = self.value else {
            return f.write_str("none");
        };
        let told = value.get(..MOST).unwrap_or(value);
        f.write_str("0x")?;
        for byte in told {
            let byte = *byte;
            write!(f, "{byte:02X}")?;
        }
        if told.len() < value.len() {
            return f.write_str("..");
        }
        Ok(())
    }
}
