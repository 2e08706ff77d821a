//! A capture of a Binding request and its success response, field by field.

use std::alloc::{AllocError, Global};

/// A section header of 28 bytes, little-endian.
pub const SECTION: [u8; 28] = [
    0x0a, 0x0d, 0x0d, 0x0a, 28, 0, 0, 0, 0x4d, 0x3c, 0x2b, 0x1a, 1, 0, 0, 0, 0xff, 0xff, 0xff,
    0xff, 0xff, 0xff, 0xff, 0xff, 28, 0, 0, 0,
];

/// An Ethernet interface with stamps of microseconds.
const INTERFACE: [u8; 20] = [1, 0, 0, 0, 20, 0, 0, 0, 1, 0, 0, 0, 0, 0, 4, 0, 20, 0, 0, 0];

const CLIENT: [u8; 4] = [198, 51, 100, 7];

const SERVER: [u8; 4] = [192, 0, 2, 1];

const CLIENT_PORT: [u8; 2] = [0x9c, 0x40];

const SERVER_PORT: [u8; 2] = [0x0d, 0x96];

const TRANSACTION: [u8; 12] = [0, 1, 2, 3, 4, 5, 6, 7, 8, 9, 10, 11];

/// The fields that tests vary.
#[derive(Drop)]
pub struct Parts<'a> {
    /// The bytes between the first frame's source address and its type.
    pub first_tag: &'a [u8],
    pub first_block: u8,
    pub first_frame: u8,
    /// The first frame's flags and fragment offset.
    pub first_flags: [u8; 2],
    /// The port in the success response, xor 0x2112.
    pub mapped_port: [u8; 2],
}

pub fn binding_parts() -> Parts<'static> {
    Parts {
        first_tag: &[],
        first_block: 0x60,
        first_frame: 0x3e,
        first_flags: [0, 0],
        mapped_port: [0xbd, 0x52],
    }
}

/// The fields of a packet block up to its data, of interface 0.
fn packet(out: &mut Vec<u8>, block: u8, stamp: [u8; 2], frame: u8) -> Result<(), AllocError> {
    out.extend_from_slice(&[6, 0, 0, 0, block, 0, 0, 0])?;
    out.extend_from_slice(&[0, 0, 0, 0])?;
    out.extend_from_slice(&[0, 0, 0, 0, stamp[0], stamp[1], 0, 0])?;
    out.extend_from_slice(&[frame, 0, 0, 0, frame, 0, 0, 0])
}

/// An IPv4 header of UDP.
fn ipv4(
    out: &mut Vec<u8>,
    length: u8,
    flags: [u8; 2],
    from: [u8; 4],
    to: [u8; 4],
) -> Result<(), AllocError> {
    out.extend_from_slice(&[0x45, 0, 0, length, 0, 0, flags[0], flags[1], 0x40, 17, 0, 0])?;
    out.extend_from_slice(&from)?;
    out.extend_from_slice(&to)
}

fn request(out: &mut Vec<u8>, parts: &Parts<'_>) -> Result<(), AllocError> {
    packet(out, parts.first_block, [0xe8, 0x03], parts.first_frame)?;
    out.extend_from_slice(&[2, 0, 0, 0, 0, 1, 2, 0, 0, 0, 0, 2])?;
    out.extend_from_slice(parts.first_tag)?;
    out.extend_from_slice(&[0x08, 0x00])?;
    ipv4(out, 0x30, parts.first_flags, CLIENT, SERVER)?;
    out.extend_from_slice(&CLIENT_PORT)?;
    out.extend_from_slice(&SERVER_PORT)?;
    out.extend_from_slice(&[0, 28, 0, 0])?;
    out.extend_from_slice(&[0, 1, 0, 0, 0x21, 0x12, 0xa4, 0x42])?;
    out.extend_from_slice(&TRANSACTION)?;
    out.extend_from_slice(&[0, 0, parts.first_block, 0, 0, 0])
}

fn success(out: &mut Vec<u8>, parts: &Parts<'_>) -> Result<(), AllocError> {
    packet(out, 0x6c, [0xdc, 0x05], 0x4a)?;
    out.extend_from_slice(&[2, 0, 0, 0, 0, 2, 2, 0, 0, 0, 0, 1, 0x08, 0x00])?;
    ipv4(out, 0x3c, [0, 0], SERVER, CLIENT)?;
    out.extend_from_slice(&SERVER_PORT)?;
    out.extend_from_slice(&CLIENT_PORT)?;
    out.extend_from_slice(&[0, 40, 0, 0])?;
    out.extend_from_slice(&[1, 1, 0, 12, 0x21, 0x12, 0xa4, 0x42])?;
    out.extend_from_slice(&TRANSACTION)?;
    out.extend_from_slice(&[0, 0x20, 0, 8, 0, 1])?;
    out.extend_from_slice(&parts.mapped_port)?;
    out.extend_from_slice(&[0xe7, 0x21, 0xc0, 0x45])?;
    out.extend_from_slice(&[0, 0, 0x6c, 0, 0, 0])
}

/// The whole capture, 252 bytes without a tag.
pub fn binding_capture(alloc: Global, parts: &Parts<'_>) -> Result<Vec<u8>, AllocError> {
    let mut out = Vec::from_slice(alloc, &SECTION)?;
    out.extend_from_slice(&INTERFACE)?;
    request(&mut out, parts)?;
    success(&mut out, parts)?;
    Ok(out)
}
