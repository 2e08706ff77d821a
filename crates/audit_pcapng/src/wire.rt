//! The constants of the pcapng format.

/// A Section Header Block's type is the same in both byte orders.
pub const SECTION_HEADER: u32 = 0x0A0D_0D0A;

pub const INTERFACE_DESCRIPTION: u32 = 1;

pub const OBSOLETE_PACKET: u32 = 2;

pub const SIMPLE_PACKET: u32 = 3;

pub const INTERFACE_STATISTICS: u32 = 5;

pub const ENHANCED_PACKET: u32 = 6;

/// The byte-order magic of a section.
pub const MAGIC: u32 = 0x1A2B_3C4D;

pub const MAJOR_VERSION: u16 = 1;

pub const ETHERNET: u16 = 1;

/// The greatest length in bytes of a block that is read.
pub const MAX_BLOCK: u32 = 16_777_216;
/// The most interfaces of a file.
pub const MAX_INTERFACES: usize = 64;

// Where the fields of a block begin (section 4).
pub const TOTAL_LENGTH: usize = 4;

pub const SECTION_MAGIC: usize = 8;

pub const SECTION_MAJOR: usize = 12;

pub const LINK_TYPE: usize = 8;

pub const INTERFACE_OPTIONS: usize = 16;

pub const INTERFACE_ID: usize = 8;

pub const STAMP_HIGH: usize = 12;

pub const STAMP_LOW: usize = 16;

pub const CAPTURED_LENGTH: usize = 20;

pub const ORIGINAL_LENGTH: usize = 24;

pub const PACKET_DATA: usize = 28;

pub const STATISTICS_OPTIONS: usize = 20;
/// The size in bytes of the total length that a block ends with.
pub const SECOND_LENGTH: usize = 4;

// The codes of the options that are read.
pub const END_OF_OPTIONS: u16 = 0;

pub const EPB_DROPCOUNT: u16 = 4;

pub const ISB_IFDROP: u16 = 5;

pub const ISB_OSDROP: u16 = 7;

pub const IF_TSRESOL: u16 = 9;

pub const IF_TSOFFSET: u16 = 14;

/// Without an if_tsresol a tick is a microsecond.
pub const DEFAULT_RESOLUTION: u8 = 6;
/// The finest resolution that is read: nanoseconds.
pub const MAX_RESOLUTION: u8 = 9;
