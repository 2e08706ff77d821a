//! The numbers in dumpcap's names for the files of a ring.

ghost use Rattle.std.specs.Prelude.{◌≡◌, ◌<◌, ◌≤◌, length, IfSome, slice_index, true};

/// A name by dumpcap: the part before `_00001_20261126120000.pcapng`, and the number in it.
#[derive(Clone, Copy, Debug)]
pub struct RingName<'a> {
    pub stem: &'a [u8],
    pub number: u32,
}

/// The length of `_00001_20261126120000.`.
const MARK: usize = 22;

/// The index of its second underscore.
const SECOND: usize = 6;

impl<'a> RingName<'a> {
    /// Parses a name by dumpcap: the last mark in it that no `/` follows.
    pub fn of(name: &'a [u8]) -> Option<Self> {
        if name.len() < MARK {
            return None;
        }
        let last = name.len() - MARK;
        for back in 0..=last {
            let at = last - back;
            let (stem, from) = name.split_at(at);
            let (mark, behind) = from.split_at(MARK);
            if is_mark(mark) && !behind.contains(&b'/') {
                return Some(RingName {
                    stem,
                    number: number_in(&mark[1..SECOND]),
                });
            }
        }
        None
    }
}

/// Whether these bytes are an underscore, five digits, an underscore, fourteen digits and a dot.
fn is_mark(mark: &[u8]) -> bool {
    if mark.len() != MARK {
        return false;
    }
    mark[0] == b'_'
        && mark[SECOND] == b'_'
        && mark[MARK - 1] == b'.'
        && mark[1..SECOND].iter().all(|b| b.is_ascii_digit())
        && mark[SECOND + 1..MARK - 1]
            .iter()
            .all(|b| b.is_ascii_digit())
}

/// The number that a few decimal digits spell.
fn number_in(digits: &[u8]) -> u32 {
    let mut number = 0u32;
    for digit in digits {
        number = number
            .wrapping_mul(10)
            .wrapping_add(u32::from(digit.wrapping_sub(b'0')));
    }
    number
}

/// Two files of one ring between which a file is missing: the index of the second one among the
/// names, and the numbers of both.
#[derive(Clone, Copy, Debug, PartialEq, Eq)]
pub struct Gap {
    pub capture: u32,
    pub before: u32,
    pub here: u32,
}

/// The first two adjacent names of one ring whose numbers aren't adjacent.
pub fn gap_in(names: &[&str]) -> Option<Gap> {
    let mut before: Option<RingName<'_>> = None;
    let mut capture = 0u32;
    for name in names {
        let here = RingName::of(name.as_bytes());
        if let (Some(one), Some(next)) = (before, here) {
            if one.stem == next.stem && one.number.checked_add(1) != Some(next.number) {
                return Some(Gap {
                    capture,
                    before: one.number,
                    here: next.number,
                });
            }
        }
        before = here;
        capture = capture.saturating_add(1);
    }
    None
}
