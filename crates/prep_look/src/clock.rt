//! The time at which an interface's statistics were written (draft-ietf-opsawg-pcapng).

use prep_blocks::Block;

/// The offset of the options in an Interface Description Block; the block's length follows them.
const OPTIONS: usize = 16;

/// The option with the resolution of stamps, and the one with their offset.
const RESOLUTION: u16 = 9;

const OFFSET: u16 = 14;

/// The offset of the moment in a statistics block, in ticks, with the upper half first.
const MOMENT: usize = 12;

/// The nanoseconds of a tick, by an interface's description. `None` if stamps have an offset or
/// another resolution than seconds, milliseconds, microseconds or nanoseconds.
pub(crate) fn nanoseconds_of_tick(block: &Block) -> Option<u64> {
    let bytes = block.bytes.as_slice();
    let mut tick = Some(1_000);
    let mut at = OPTIONS;
    for _ in 0..bytes.len() {
        if bytes.len().saturating_sub(at) < 8 {
            return tick;
        }
        let code = block.order.u16_at(bytes, at);
        let words = block.order.u16_at(bytes, at + 2).div_ceil(4);
        match code {
            0 => return tick,
            RESOLUTION => tick = tick_of(*bytes.get(at + 4)?),
            OFFSET => tick = None,
            _ => {}
        }
        at = at.saturating_add(4).saturating_add(usize::from(words) * 4);
    }
    tick
}

/// The tick of a resolution in seconds, milliseconds, microseconds or nanoseconds.
fn tick_of(resolution: u8) -> Option<u64> {
    match resolution {
        0 => Some(1_000_000_000),
        3 => Some(1_000_000),
        6 => Some(1_000),
        9 => Some(1),
        _ => None,
    }
}

/// The time at which a statistics block was written, in nanoseconds since 1970.
pub(crate) fn closing_time(block: &Block, tick: Option<u64>) -> Option<u64> {
    let bytes = block.bytes.as_slice();
    if bytes.len() < MOMENT + 8 {
        return None;
    }
    let high = u64::from(block.order.u32_at(bytes, MOMENT));
    let low = u64::from(block.order.u32_at(bytes, MOMENT + 4));
    let ticks = high * 4_294_967_296 + low;
    ticks.checked_mul(tick?)
}
