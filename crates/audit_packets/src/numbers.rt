//! The constants of frames.

/// The types of VLAN tags (IEEE 802.1Q): of a customer and of a service.
pub(crate) const CUSTOMER_TAG: u16 = 0x8100;

pub(crate) const SERVICE_TAG: u16 = 0x88A8;

/// The type of IPv4 in Ethernet (RFC 894).
pub(crate) const IPV4_TYPE: u16 = 0x0800;

/// The number of UDP in an IPv4 header (RFC 768).
pub(crate) const UDP_PROTOCOL: u8 = 17;

/// Bytes of an IPv4 header without options (RFC 791).
pub(crate) const LEAST_HEADER: usize = 20;

/// Bytes of a UDP header (RFC 768).
pub(crate) const UDP_HEADER: usize = 8;
