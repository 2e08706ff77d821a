//! Fragments of UDP datagrams over IPv4 (RFC 791).

ghost use Rattle.std.specs.Prelude.{◌≡◌};

use crate::places::{number_of_four, place_of_data};
use prep_frames::{content_place, number_at};

/// The datagram to which a fragment belongs.
#[derive(Clone, Copy, Debug, PartialEq, Eq, PartialOrd, Ord)]
pub struct Key {
    /// The interface's number in the file.
    pub iface: u32,
    pub from: u32,
    pub to: u32,
    /// The identification of the IPv4 header.
    pub id: u16,
}

/// A fragment, by offsets in its frame.
#[derive(Clone, Copy, Debug, PartialEq, Eq)]
pub struct Fragment {
    pub key: Key,
    /// The offset of its data in the datagram's data.
    pub offset: usize,
    /// The flag "more fragments".
    pub has_more: bool,
    /// The offsets of the start and the end of its data in the frame.
    pub begin: usize,
    pub end: usize,
}

impl Fragment {
    ghost use Rattle.prep_fragments.specs.Parts.{fragment_of};

    /// Parses the fragment of a frame that has one.
    pub fn read(iface: u32, frame: &[u8]) -> Fragment
        ensures { result ≡ fragment_of iface frame.now }
    {
        let at = content_place(frame);
        let field = number_at(frame, at + 6);
        Fragment {
            key: Key {
                iface,
                from: number_of_four(frame, at + 12),
                to: number_of_four(frame, at + 16),
                id: number_at(frame, at + 4),
            },
            offset: (field % 8192) as usize * 8,
            has_more: field / 8192 % 2 == 1,
            begin: place_of_data(frame, at),
            end: at + number_at(frame, at + 2) as usize,
        }
    }
}
