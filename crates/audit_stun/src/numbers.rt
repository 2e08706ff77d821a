//! The numbers on the wire, in the standards' spelling.

/// The field after the length of a message (RFC 8489, section 5).
pub const MAGIC_COOKIE: u32 = 0x2112_A442;

/// Bytes of a message before its attributes (RFC 8489, section 5).
pub const HEADER_LENGTH: usize = 20;

/// The family of an IPv4 address (RFC 8489, section 14.1).
pub const FAMILY_IPV4: u8 = 0x01;

/// Methods (RFC 8489, section 18.2; RFC 8656, section 17).
pub mod method {
    pub const BINDING: u16 = 0x001;

    pub const ALLOCATE: u16 = 0x003;

    pub const REFRESH: u16 = 0x004;

    pub const SEND: u16 = 0x006;

    pub const DATA: u16 = 0x007;

    pub const CREATE_PERMISSION: u16 = 0x008;

    pub const CHANNEL_BIND: u16 = 0x009;
}

/// Types of attributes (RFC 8489, section 18.3; RFC 8656, section 18).
pub mod attribute {
    pub const USERNAME: u16 = 0x0006;

    pub const MESSAGE_INTEGRITY: u16 = 0x0008;

    pub const ERROR_CODE: u16 = 0x0009;

    pub const UNKNOWN_ATTRIBUTES: u16 = 0x000A;

    pub const CHANNEL_NUMBER: u16 = 0x000C;

    pub const LIFETIME: u16 = 0x000D;

    pub const XOR_PEER_ADDRESS: u16 = 0x0012;

    pub const DATA: u16 = 0x0013;

    pub const REALM: u16 = 0x0014;

    pub const NONCE: u16 = 0x0015;

    pub const XOR_RELAYED_ADDRESS: u16 = 0x0016;

    pub const REQUESTED_ADDRESS_FAMILY: u16 = 0x0017;

    pub const EVEN_PORT: u16 = 0x0018;

    pub const REQUESTED_TRANSPORT: u16 = 0x0019;

    pub const MESSAGE_INTEGRITY_SHA256: u16 = 0x001C;

    pub const PASSWORD_ALGORITHM: u16 = 0x001D;

    pub const XOR_MAPPED_ADDRESS: u16 = 0x0020;

    pub const FINGERPRINT: u16 = 0x8028;
}
