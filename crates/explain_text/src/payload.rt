//! The description of a datagram, in a few words.

use crate::quoted::Quoted;
use crate::stun_words::MethodWord;
use audit_stun::numbers::attribute::ERROR_CODE;
use audit_stun::{Class, Message, channel_data, error_code, message};
use std::fmt;

/// The payload of a datagram, as `ChannelData 0x4000, 17 bytes` or `Allocate 437 "Allocation
/// Mismatch"`. Between the server and peers it is just UDP.
#[derive(Clone, Copy, Debug)]
pub struct Datagram<'a> {
    pub payload: &'a [u8],
    /// Whether one of its ends is a listen address.
    pub is_clients: bool,
}

/// Writes an error response.
fn write_error<W: fmt::Write>(f: &mut fmt::Formatter<W>, answer: &Message<'_>) -> fmt::Result {
    let method = MethodWord {
        method: answer.method(),
    };
    let value = answer.first(ERROR_CODE).unwrap_or(&[]);
    let Some(code) = error_code(value) else {
        return write!(f, "{method} error without a code");
    };
    let phrase = Quoted {
        bytes: value.get(4..).unwrap_or(&[]),
    };
    write!(f, "{method} {code} \"{phrase}\"")
}

/// Writes a message.
fn write_message<W: fmt::Write>(f: &mut fmt::Formatter<W>, told: &Message<'_>) -> fmt::Result {
    let method = MethodWord {
        method: told.method(),
    };
    match told.class() {
        Class::Request => write!(f, "{method}"),
        Class::Indication => write!(f, "{method} indication"),
        Class::Success => write!(f, "{method} success"),
        Class::Error => write_error(f, told),
    }
}

impl fmt::Display for Datagram<'_> {
    fn fmt<W: fmt::Write>(&self, f: &mut fmt::Formatter<W>) -> fmt::Result {
        let size = self.payload.len();
        if !self.is_clients {
            return write!(f, "UDP, {size} bytes");
        }
        if let Some((number, bytes, _)) = channel_data(self.payload) {
            let size = bytes.len();
            return write!(f, "ChannelData 0x{number:04X}, {size} bytes");
        }
        match message(self.payload) {
            Some(told) => write_message(f, &told),
            None => write!(f, "no STUN, {size} bytes"),
        }
    }
}

/// The size of data and its bytes in hex; of more than 16 bytes the first 16.
#[derive(Clone, Copy, Debug)]
pub struct FirstBytes<'a> {
    pub bytes: &'a [u8],
}

/// At most this number of bytes is written.
const MOST: usize = 16;

impl fmt::Display for FirstBytes<'_> {
    fn fmt<W: fmt::Write>(&self, f: &mut fmt::Formatter<W>) -> fmt::Result {
        let size = self.bytes.len();
        write!(f, "{size} bytes")?;
        let told = self.bytes.get(..MOST).unwrap_or(self.bytes);
        if told.is_empty() {
            return Ok(());
        }
        f.write_str(" ")?;
        for byte in told {
            let byte = *byte;
            write!(f, "{byte:02x}")?;
        }
        if told.len() < size {
            return f.write_str("..");
        }
        Ok(())
    }
}

/// Eight bytes of data in hex around an index, as far as they exist; `nothing` if none does.
#[derive(Clone, Copy, Debug)]
pub struct BytesAround<'a> {
    pub bytes: &'a [u8],
    pub at: usize,
}

/// The number of bytes that are printed, and the number of them before the index.
const AROUND: usize = 8;

const BEFORE: usize = 3;

impl BytesAround<'_> {
    /// The index of the first of them.
    pub fn begin(at: usize) -> usize {
        at.saturating_sub(BEFORE)
    }
}

impl fmt::Display for BytesAround<'_> {
    fn fmt<W: fmt::Write>(&self, f: &mut fmt::Formatter<W>) -> fmt::Result {
        let rest = self.bytes.get(BytesAround::begin(self.at)..).unwrap_or(&[]);
        let around = rest.get(..AROUND).unwrap_or(rest);
        if around.is_empty() {
            return f.write_str("nothing");
        }
        for byte in around {
            let byte = *byte;
            write!(f, "{byte:02x}")?;
        }
        Ok(())
    }
}
