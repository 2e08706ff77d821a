//! Captures, whole and in pieces, and the packets that a reader returns.

use audit_pcapng::{BlockReader, CaptureFault};
use std::alloc::Global;
use std::process::Abort;
use std::test::Fail;

/// A packet without its bytes: interface in the file, stamp, captured and original length.
type Seen = (u32, u64, u32, u32);

/// The packets of a reader that is fed these pieces, and the code of its fault.
fn reading(alloc: Global, pieces: &[&[u8]]) -> Result<(Vec<Seen>, &'static str), Fail> {
    let mut reader = BlockReader::new(alloc);
    let mut out = Vec::new(alloc);
    let mut end = "whole";
    for piece in pieces {
        if let Err(fault) = reader.feed(piece, &mut out) {
            end = fault.code();
            break;
        }
    }
    if end == "whole"
        && let Err(fault) = reader.finish()
    {
        end = fault.code();
    }
    let mut seen = Vec::new(alloc);
    for p in &out {
        seen.push((p.iface, p.stamp, p.captured, p.original))?;
    }
    Ok((seen, end))
}

fn joined(alloc: Global, parts: &[&[u8]]) -> Result<Vec<u8>, Fail> {
    let mut bytes = Vec::new(alloc);
    for part in parts {
        bytes.extend_from_slice(part)?;
    }
    Ok(bytes)
}

pub const SECTION: &[u8] = b"\x0a\x0d\x0d\x0a\x1c\0\0\0\x4d\x3c\x2b\x1a\x01\0\0\0\
    \xff\xff\xff\xff\xff\xff\xff\xff\x1c\0\0\0";

pub const INTERFACE: &[u8] = b"\x01\0\0\0\x14\0\0\0\x01\0\0\0\0\0\x04\0\x14\0\0\0";

/// Two bytes of five, at 1,000 us.
pub const PACKET: &[u8] =
    b"\x06\0\0\0\x24\0\0\0\0\0\0\0\0\0\0\0\xe8\x03\0\0\x02\0\0\0\x05\0\0\0hi\0\0\
    \x24\0\0\0";

/// A Binding request of 62 bytes at 1,000 us, and its response of 74 bytes at 1,500 us.
const REQUEST: &[u8] = b"\x06\0\0\0\x60\0\0\0\0\0\0\0\0\0\0\0\xe8\x03\0\0\x3e\0\0\0\x3e\0\0\0\
    \x02\0\0\0\0\x01\x02\0\0\0\0\x02\x08\0\
    \x45\0\0\x30\0\0\0\0\x40\x11\0\0\xc6\x33\x64\x07\xc0\0\x02\x01\
    \x9c\x40\x0d\x96\0\x1c\0\0\
    \0\x01\0\0\x21\x12\xa4\x42\0\x01\x02\x03\x04\x05\x06\x07\x08\x09\x0a\x0b\
    \0\0\x60\0\0\0";

const RESPONSE_HEAD: &[u8] = b"\0\0\0\0\0\0\0\0\xdc\x05\0\0\x4a\0\0\0\x4a\0\0\0\
    \x02\0\0\0\0\x02\x02\0\0\0\0\x01\x08\0\
    \x45\0\0\x3c\0\0\0\0\x40\x11\0\0\xc0\0\x02\x01\xc6\x33\x64\x07\
    \x0d\x96\x9c\x40\0\x28\0\0\
    \x01\x01\0\x0c\x21\x12\xa4\x42\0\x01\x02\x03\x04\x05\x06\x07\x08\x09\x0a\x0b\
    \0\x20\0\x08\0\x01\xbd\x52\xe7\x21\xc0\x45\0\0";

const DROP_OPTION: &[u8] = b"\x04\0\x08\0\x01\0\0\0\0\0\0\0\0\0\0\0";

/// A capture in its parts, the packets that a reader returns, and the code of its fault.
#[derive(Clone, Copy)]
struct Row<'a> {
    parts: &'a [&'a [u8]],
    seen: &'a [Seen],
    end: &'a str,
}

/// Checks that a reader which is fed these pieces returns these packets, and then this fault.
fn assert_read(
    rt: &(impl Abort + AllocGlobal),
    pieces: &[&[u8]],
    seen: &[Seen],
    end: &str,
) -> Result<(), Fail> {
    let (found, fault) = reading(rt.alloc(), pieces)?;
    let count = pieces.len();
    assert_eq!(rt; (found.as_slice(), fault), (seen, end), "{count} pieces");
    Ok(())
}

static BINDING: Row<'static> = Row {
    parts: &[
        SECTION,
        INTERFACE,
        REQUEST,
        b"\x06\0\0\0\x6c\0\0\0",
        RESPONSE_HEAD,
        b"\x6c\0\0\0",
    ],
    seen: &[(0, 1_000_000, 62, 62), (0, 1_500_000, 74, 74)],
    end: "whole",
};

/// The response with an option that reports a lost packet.
const DROPPED: Row<'static> = Row {
    parts: &[
        SECTION,
        INTERFACE,
        REQUEST,
        b"\x06\0\0\0\x7c\0\0\0",
        RESPONSE_HEAD,
        DROP_OPTION,
        b"\x7c\0\0\0",
    ],
    seen: &[(0, 1_000_000, 62, 62)],
    end: "C11",
};

#[test]
fn binding_whole_and_in_pieces(rt: HostRuntime) -> Result<(), Fail> {
    let alloc = rt.alloc();
    let bytes = joined(alloc, BINDING.parts)?;
    assert_eq!(rt; bytes.len(), 252);
    let mut single: Vec<&[u8]> = Vec::new(alloc);
    for byte in bytes.as_slice().chunks(1) {
        single.push(byte)?;
    }
    assert_read(&rt, single.as_slice(), BINDING.seen, "whole")?;
    for cut in 0..=bytes.len() {
        let (front, back) = bytes.as_slice().split_at(cut);
        assert_read(&rt, &[front, back], BINDING.seen, "whole")?;
    }
    Ok(())
}

#[test]
fn binding_that_ends_early(rt: HostRuntime) -> Result<(), Fail> {
    let alloc = rt.alloc();
    let bytes = joined(alloc, BINDING.parts)?;
    for cut in 0..bytes.len() {
        let (_, end) = reading(alloc, &[&bytes[..cut]])?;
        let wanted = match cut {
            0 => "C5",
            28 | 48 | 144 => "whole",
            _ => "C1",
        };
        assert_eq!(rt; end, wanted, "ends at {cut}");
    }
    Ok(())
}

#[test]
fn bytes_of_a_packet(rt: HostRuntime) -> Result<(), Fail> {
    let mut reader = BlockReader::new(rt.alloc());
    let mut out = Vec::new(rt.alloc());
    for piece in [SECTION, INTERFACE, PACKET] {
        reader.feed(piece, &mut out).ok().ok_or("accepted")?;
    }
    for packet in &out {
        assert_eq!(rt; packet.bytes.as_slice(), b"hi".as_slice());
    }
    assert_eq!(rt;
        reader.feed(b"\0\0\0\0\0\0\0\0", &mut out),
        Err(CaptureFault::Length)
    );
    assert_eq!(rt; reader.feed(b"", &mut out), Err(CaptureFault::Failed));
    assert_eq!(rt; reader.finish(), Err(CaptureFault::Failed));
    assert_eq!(rt; out.len(), 1);
    Ok(())
}

const BIG_SECTION: &[u8] = b"\x0a\x0d\x0d\x0a\0\0\0\x1c\x1a\x2b\x3c\x4d\0\x01\0\0\
    \xff\xff\xff\xff\xff\xff\xff\xff\0\0\0\x1c";

/// With if_tsresol 9, a second if_tsresol 6 of the wrong length, and the end of options.
const BIG_NANOSECONDS: &[u8] = b"\0\0\0\x01\0\0\0\x28\0\x01\0\0\0\x04\0\0\
    \0\x09\0\x01\x09\0\0\0\0\x09\0\x02\x06\x06\0\0\0\0\xff\xff\0\0\0\x28";

const BIG_PACKET: &[u8] =
    b"\0\0\0\x06\0\0\0\x24\0\0\0\0\0\0\0\x01\0\0\0\x02\0\0\0\x02\0\0\0\x05hi\0\0\
    \0\0\0\x24";

const SMALL: Seen = (0, 1_000_000, 2, 5);

static ROWS: [Row<'static>; 7] = [
    DROPPED,
    Row {
        parts: &[SECTION, INTERFACE, PACKET],
        seen: &[SMALL],
        end: "whole",
    },
    Row {
        parts: &[BIG_SECTION, BIG_NANOSECONDS, BIG_PACKET],
        seen: &[(0, 4_294_967_298, 2, 5)],
        end: "whole",
    },
    // The second section's interface 0 is the file's interface 1, with the default resolution.
    Row {
        parts: &[
            BIG_SECTION,
            BIG_NANOSECONDS,
            BIG_PACKET,
            SECTION,
            INTERFACE,
            PACKET,
        ],
        seen: &[(0, 4_294_967_298, 2, 5), (1, 1_000_000, 2, 5)],
        end: "whole",
    },
    // A custom block is skipped.
    Row {
        parts: &[
            SECTION,
            b"\xad\x0b\0\0\x0c\0\0\0\x0c\0\0\0",
            INTERFACE,
            PACKET,
        ],
        seen: &[SMALL],
        end: "whole",
    },
    // A section's options are not read: here one passes the block's end.
    Row {
        parts: &[
            b"\x0a\x0d\x0d\x0a\x20\0\0\0\x4d\x3c\x2b\x1a\x01\0\0\0\
                \xff\xff\xff\xff\xff\xff\xff\xff\x01\0\xff\xff\x20\0\0\0",
            INTERFACE,
            PACKET,
        ],
        seen: &[SMALL],
        end: "whole",
    },
    // The first of a repeated option counts: epb_dropcount 0, then 1.
    Row {
        parts: &[
            SECTION,
            INTERFACE,
            b"\x06\0\0\0\x38\0\0\0\0\0\0\0\0\0\0\0\0\0\0\0\0\0\0\0\0\0\0\0\
                \x04\0\x08\0\0\0\0\0\0\0\0\0\x04\0\x08\0\x01\0\0\0\0\0\0\0\x38\0\0\0",
        ],
        seen: &[(0, 0, 0, 0)],
        end: "whole",
    },
];

#[test]
fn orders_sections_and_dropped_packets(rt: HostRuntime) -> Result<(), Fail> {
    for Row { parts, seen, end } in &ROWS {
        let bytes = joined(rt.alloc(), parts)?;
        assert_read(&rt, &[bytes.as_slice()], seen, end)?;
    }
    Ok(())
}
