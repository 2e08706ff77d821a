//! Frames, and the datagrams in them.

use audit_model::{Addr, Listed};
use audit_packets::{Seen, datagram};
use audit_pcapng::Packet;
use std::alloc::{AllocError, Global};
use std::test::Fail;

/// A Binding request from 198.51.100.7:40000 to 192.0.2.1:3478, as a frame in its parts.
const ADDRESSES: [u8; 12] = [2, 0, 0, 0, 0, 1, 2, 0, 0, 0, 0, 2];

const IPV4: [u8; 2] = [0x08, 0x00];

const HEADER: [u8; 20] = [
    0x45, 0, 0, 0x30, 0, 0, 0, 0, 0x40, 17, 0, 0, 198, 51, 100, 7, 192, 0, 2, 1,
];

const UDP: [u8; 8] = [0x9C, 0x40, 0x0D, 0x96, 0, 0x1C, 0, 0];

const REQUEST: [u8; 20] = [
    0, 1, 0, 0, 0x21, 0x12, 0xA4, 0x42, 0, 1, 2, 3, 4, 5, 6, 7, 8, 9, 10, 11,
];

const CLIENT: Addr = Addr {
    ip: 0xC633_6407,
    port: 40000,
};

const SERVER: Addr = Addr {
    ip: 0xC000_0201,
    port: 3478,
};

const DATAGRAM: Seen<'static> = Seen::Udp {
    from: CLIENT,
    to: SERVER,
    payload: &REQUEST,
};

const IPS: (u32, u32) = (0xC633_6407, 0xC000_0201);

/// A packet of these bytes, with `missing` more bytes on the link.
fn packet(alloc: Global, parts: &[&[u8]], missing: u32) -> Result<Packet, AllocError> {
    let mut bytes = Vec::new(alloc);
    for part in parts {
        bytes.extend_from_slice(part)?;
    }
    let captured = bytes.len().min(60000) as u32;
    Ok(Packet {
        iface: 0,
        stamp: 0,
        captured,
        original: captured.saturating_add(missing),
        bytes: Listed::from(bytes),
    })
}

/// Whether a packet of these bytes, with `missing` more bytes on the link, contains this.
fn holds(alloc: Global, parts: &[&[u8]], missing: u32, want: Seen<'_>) -> Result<bool, AllocError> {
    let packet = packet(alloc, parts, missing)?;
    Ok(datagram(&packet) == want)
}

/// Whether the datagram is parsed after these tags and options, and before this padding of the
/// link.
fn is_seen(
    alloc: Global,
    tags: &[u8],
    header: &[u8],
    options: &[u8],
    padding: &[u8],
) -> Result<bool, AllocError> {
    let parts = [
        ADDRESSES.as_slice(),
        tags,
        &IPV4,
        header,
        options,
        &UDP,
        &REQUEST,
        padding,
    ];
    holds(alloc, &parts, 0, DATAGRAM)
}

/// The header with four bytes of options.
const WITH_OPTIONS: [u8; 20] = [
    0x46, 0, 0, 0x34, 0, 0, 0, 0, 0x40, 17, 0, 0, 198, 51, 100, 7, 192, 0, 2, 1,
];

/// Tags, a header, its options and padding, and whether the datagram is parsed.
static WHOLE: [(&[u8], &[u8], &[u8], &[u8], bool); 7] = [
    (&[], &HEADER, &[], &[], true),
    (&[0x81, 0x00, 0, 5], &HEADER, &[], &[], true),
    (&[0x88, 0xA8, 0, 9], &HEADER, &[], &[], true),
    (
        &[0x88, 0xA8, 0, 9, 0x81, 0x00, 0, 5],
        &HEADER,
        &[],
        &[],
        true,
    ),
    (
        &[0x88, 0xA8, 0, 9, 0x81, 0x00, 0, 5, 0x81, 0x00, 0, 6],
        &HEADER,
        &[],
        &[],
        false,
    ),
    (&[], &WITH_OPTIONS, &[1; 4], &[], true),
    (&[], &HEADER, &[], &[7; 6], true),
];

#[test]
fn whole_datagrams(rt: HostRuntime) -> Result<(), Fail> {
    for (tags, header, options, padding, wanted) in &WHOLE {
        let seen = is_seen(rt.alloc(), tags, header, options, padding)?;
        assert_eq!(rt;
            seen,
            *wanted,
            "tags {tags:?}, header {header:?}, padding {padding:?}"
        );
    }
    Ok(())
}

#[test]
fn headers_of_other_kinds(rt: HostRuntime) -> Result<(), Fail> {
    let fragment = Seen::Fragment {
        from: IPS.0,
        to: IPS.1,
    };
    for (at, byte, want) in [
        (0, 0x65, Seen::Other), // version 6
        (0, 0x44, Seen::Other), // four words of header
        (3, 0x13, Seen::Other), // a total length under the header's
        (3, 0x1B, Seen::Other), // no room for a UDP header
        (3, 0x2F, Seen::Other), // a UDP length over the rest of the total length
        (3, 0x31, DATAGRAM), // a UDP length under it
        (9, 6, Seen::Other), // TCP
        (6, 0x20, fragment), // more fragments
        (6, 0x01, fragment), // an offset of 256
        (7, 0x01, fragment), // an offset of 1
        (6, 0x40, DATAGRAM), // don't fragment
    ] {
        let mut header = HEADER;
        header[at] = byte;
        let parts = [ADDRESSES.as_slice(), &IPV4, &header, &UDP, &REQUEST, &[0]];
        assert!(rt; holds(rt.alloc(), &parts, 0, want)?, "byte {at} is {byte}");
    }
    let parts = [ADDRESSES.as_slice(), &[0x86, 0xDD], &HEADER, &UDP, &REQUEST];
    assert!(rt; holds(rt.alloc(), &parts, 0, Seen::Other)?);
    Ok(())
}

#[test]
fn frames_that_end_early(rt: HostRuntime) -> Result<(), Fail> {
    let parts = [ADDRESSES.as_slice(), &IPV4, &HEADER, &UDP, &REQUEST];
    let whole = packet(rt.alloc(), &parts, 0)?;
    let frame = whole.bytes.as_slice();
    for len in 0..frame.len() {
        let front = [&frame[..len]];
        let ips = if len < 34 { None } else { Some(IPS) };
        assert!(rt;
            holds(rt.alloc(), &front, 1, Seen::Cut { ips })?,
            "{len} bytes of more"
        );
        assert!(rt; holds(rt.alloc(), &front, 0, Seen::Other)?, "{len} bytes");
    }
    // truncated after the payload
    assert!(rt; holds(rt.alloc(), &parts, 1, DATAGRAM)?);
    Ok(())
}
