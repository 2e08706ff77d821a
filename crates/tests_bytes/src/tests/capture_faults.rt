//! Captures that are refused, and the stamps by an interface's clock.

use super::captures::{INTERFACE, PACKET, SECTION};
use audit_pcapng::{BlockReader, CaptureFault};
use std::alloc::Global;
use std::test::Fail;

/// An interface block up to its options, their bytes, and its end.
#[derive(Clone, Copy)]
struct Clock<'a> {
    head: &'a [u8],
    option: &'a [u8],
    end: &'a [u8],
}

/// The nanoseconds of the packet's stamp, its high and low word, by the clock of an interface.
fn read_by(alloc: Global, clock: &Clock<'_>, stamp: &[u8]) -> Result<u64, CaptureFault> {
    let mut reader = BlockReader::new(alloc);
    let mut out = Vec::new(alloc);
    for piece in [
        SECTION,
        clock.head,
        clock.option,
        clock.end,
        b"\x06\0\0\0\x20\0\0\0\0\0\0\0",
        stamp,
        b"\0\0\0\0\0\0\0\0\x20\0\0\0",
    ] {
        reader.feed(piece, &mut out)?;
    }
    Ok(out.last().map_or(0, |packet| packet.stamp))
}

/// An interface with one option of eight bytes.
macro_rules! clock {
    ($option:literal) => {
        Clock {
            head: b"\x01\0\0\0\x1c\0\0\0\x01\0\0\0\0\0\x04\0",
            option: $option,
            end: b"\x1c\0\0\0",
        }
    };
}

/// An interface with an offset in seconds.
macro_rules! clock_from {
    ($offset:literal) => {
        Clock {
            head: b"\x01\0\0\0\x20\0\0\0\x01\0\0\0\0\0\x04\0\x0e\0\x08\0",
            option: $offset,
            end: b"\x20\0\0\0",
        }
    };
}

const GREATEST: &[u8] = b"\xff\xff\xff\xff\xff\xff\xff\xff";

const ONE_SECOND: &[u8] = b"\0\0\0\0\x40\x42\x0f\0";

/// Clocks, the stamp's high and low word, and the nanoseconds or the fault.
static STAMPS: [(Clock<'static>, &[u8], Result<u64, CaptureFault>); 11] = [
    (clock!(b"\x01\0\x04\0eth0"), ONE_SECOND, Ok(1_000_000_000)),
    (
        clock!(b"\x01\0\x04\0eth0"),
        GREATEST,
        Err(CaptureFault::StampRange),
    ),
    // Resolutions of 9, 0, 10, and of 2 to the power of -9.
    (clock!(b"\x09\0\x01\0\x09\0\0\0"), GREATEST, Ok(u64::MAX)),
    (
        clock!(b"\x09\0\x01\0\0\0\0\0"),
        b"\0\0\0\0\x02\0\0\0",
        Ok(2_000_000_000),
    ),
    (
        clock!(b"\x09\0\x01\0\x0a\0\0\0"),
        ONE_SECOND,
        Err(CaptureFault::Resolution),
    ),
    (
        clock!(b"\x09\0\x01\0\x89\0\0\0"),
        ONE_SECOND,
        Err(CaptureFault::Resolution),
    ),
    // A resolution of two bytes, and one of five.
    (
        clock!(b"\x09\0\x02\0\x06\x06\0\0"),
        ONE_SECOND,
        Err(CaptureFault::Length),
    ),
    (
        clock!(b"\x09\0\x05\0\x06\0\0\0"),
        ONE_SECOND,
        Err(CaptureFault::Length),
    ),
    // The offset is signed: at -1 a stamp of one second is 1970 itself.
    (
        clock_from!(b"\xff\xff\xff\xff\xff\xff\xff\xff"),
        ONE_SECOND,
        Ok(0),
    ),
    (
        clock_from!(b"\xff\xff\xff\xff\xff\xff\xff\xff"),
        b"\0\0\0\0\x3f\x42\x0f\0",
        Err(CaptureFault::StampRange),
    ),
    (
        clock_from!(b"\x02\0\0\0\0\0\0\0"),
        b"\0\0\0\0\x01\0\0\0",
        Ok(2_000_001_000),
    ),
];

#[test]
fn stamps_and_offsets(rt: HostRuntime) {
    for (clock, stamp, wanted) in &STAMPS {
        let option = clock.option;
        assert_eq!(rt;
            read_by(rt.alloc(), clock, stamp),
            *wanted,
            "at {option:?} {stamp:?}"
        );
    }
}

/// Captures in their parts, each of which shows its fault with its last byte, and no sooner.
static FAULTS: [(&[&[u8]], &str); 24] = [
    (&[b"\x01\0\0\0"], "C5"),
    (&[b"\x0a\x0d\x0d\x0a\x1c\0\0\0\x4d\x3c\x2b\x1b"], "C2"),
    (&[b"\x0a\x0d\x0d\x0a\x18\0\0\0\x4d\x3c\x2b\x1a"], "C3"),
    (&[b"\x0a\x0d\x0d\x0a\x1c\0\0\x01\x4d\x3c\x2b\x1a"], "C12"),
    (
        &[
            b"\x0a\x0d\x0d\x0a\x1c\0\0\0\x4d\x3c\x2b\x1a\x02\0\0\0\
            \xff\xff\xff\xff\xff\xff\xff\xff\x1c\0\0\0",
        ],
        "C4",
    ),
    (&[SECTION, b"\x01\0\0\0\xff\xff\xff\xff"], "C3"),
    (&[SECTION, b"\x01\0\0\0\x10\0\0\0"], "C3"),
    (&[SECTION, b"\x01\0\0\0\xfc\xff\xff\xff"], "C12"),
    (&[SECTION, b"\x01\0\0\0\x04\0\0\x01"], "C12"),
    (&[SECTION, b"\x05\0\0\0\x14\0\0\0"], "C3"),
    (&[SECTION, b"\x06\0\0\0\x1c\0\0\0"], "C3"),
    (&[SECTION, b"\x07\0\0\0\x08\0\0\0"], "C3"),
    (&[SECTION, b"\x07\0\0\0\x0c\0\0\0\x10\0\0\0"], "C3"),
    (&[SECTION, b"\x02\0\0\0\x0c\0\0\0\x0c\0\0\0"], "C10"),
    (&[SECTION, b"\x03\0\0\0\x0c\0\0\0\x0c\0\0\0"], "C10"),
    (
        &[
            SECTION,
            b"\x01\0\0\0\x14\0\0\0\x71\0\0\0\0\0\x04\0\x14\0\0\0",
        ],
        "C7",
    ),
    (&[SECTION, PACKET], "C6"),
    (&[SECTION, INTERFACE, SECTION, PACKET], "C6"),
    // The data pass the end: this is found before the interface is looked up.
    (
        &[
            SECTION,
            b"\x06\0\0\0\x20\0\0\0\0\0\0\0\0\0\0\0\0\0\0\0\xff\xff\xff\xff\0\0\0\0\x20\0\0\0",
        ],
        "C3",
    ),
    // epb_dropcount 1; of 4 bytes; 1 and then an option past the end.
    (
        &[
            SECTION,
            INTERFACE,
            b"\x06\0\0\0\x2c\0\0\0\0\0\0\0\0\0\0\0\0\0\0\0\0\0\0\0\0\0\0\0\
                \x04\0\x08\0\x01\0\0\0\0\0\0\0\x2c\0\0\0",
        ],
        "C11",
    ),
    (
        &[
            SECTION,
            INTERFACE,
            b"\x06\0\0\0\x28\0\0\0\0\0\0\0\0\0\0\0\0\0\0\0\0\0\0\0\0\0\0\0\
                \x04\0\x04\0\0\0\0\0\x28\0\0\0",
        ],
        "C3",
    ),
    (
        &[
            SECTION,
            INTERFACE,
            b"\x06\0\0\0\x30\0\0\0\0\0\0\0\0\0\0\0\0\0\0\0\0\0\0\0\0\0\0\0\
                \x04\0\x08\0\x01\0\0\0\0\0\0\0\x01\0\x04\0\x30\0\0\0",
        ],
        "C3",
    ),
    // isb_osdrop 1; and of an interface that doesn't exist.
    (
        &[
            SECTION,
            INTERFACE,
            b"\x05\0\0\0\x30\0\0\0\0\0\0\0\0\0\0\0\0\0\0\0\x05\0\x08\0\0\0\0\0\0\0\0\0\
                \x07\0\x08\0\x01\0\0\0\0\0\0\0\x30\0\0\0",
        ],
        "C11",
    ),
    (
        &[
            SECTION,
            INTERFACE,
            b"\x05\0\0\0\x18\0\0\0\x01\0\0\0\0\0\0\0\0\0\0\0\x18\0\0\0",
        ],
        "C6",
    ),
];

/// The fault that the last byte shows.
fn last_code(alloc: Global, parts: &[&[u8]]) -> &'static str {
    let mut reader = BlockReader::new(alloc);
    let mut out = Vec::new(alloc);
    let mut end = Ok(());
    for part in parts {
        for byte in part.chunks(1) {
            if end.is_err() {
                return "too soon";
            }
            end = reader.feed(byte, &mut out);
        }
    }
    match end {
        Ok(()) => "none",
        Err(fault) => fault.code(),
    }
}

#[test]
fn faults(rt: HostRuntime) {
    for (parts, wanted) in &FAULTS {
        assert_eq!(rt; last_code(rt.alloc(), parts), *wanted);
    }
}

#[test]
fn interfaces_of_a_file(rt: HostRuntime) -> Result<(), Fail> {
    let mut reader = BlockReader::new(rt.alloc());
    let mut out = Vec::new(rt.alloc());
    for _ in 0..2 {
        reader.feed(SECTION, &mut out).ok().ok_or("a section")?;
        for _ in 0..32 {
            reader.feed(INTERFACE, &mut out).ok().ok_or("one of 64")?;
        }
    }
    assert_eq!(rt; reader.feed(INTERFACE, &mut out), Err(CaptureFault::Limit));
    Ok(())
}
