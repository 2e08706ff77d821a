//! An interface's clock.

ghost use Rattle.std.specs.Prelude.{◌≡◌};
ghost use Rattle.audit_pcapng.specs.Clocks.{clock, resolution};

use crate::byte_order::ByteOrder;
use crate::fault::CaptureFault;
use crate::option::{first_option, number_option};
use crate::wire::{DEFAULT_RESOLUTION, IF_TSOFFSET, IF_TSRESOL};

/// How an interface's stamps are read (section 4.2).
#[derive(Clone, Copy, Debug, PartialEq, Eq)]
pub struct Interface {
    /// Seconds to be added to each stamp.
    pub offset: i64,
    /// The number of decimal digits of a second that a tick has.
    pub resolution: u8,
}

/// The number of decimal digits of a second that a nanosecond has.
const NANOSECOND_DIGITS: u8 = 9;

const NANOSECONDS: u128 = 1_000_000_000;

impl Interface {
    ghost use Rattle.audit_pcapng.specs.Stamps.{stamp_of};

    /// The nanoseconds since 1970 of a stamp in this clock's ticks. Ticks finer than a nanosecond,
    /// which no described interface has, count as nanoseconds.
    #[tactic(auto, unfolding(crate::specs::Stamps::stamp_of))]
    pub fn stamp(self, ticks: u64) -> Result<u64, CaptureFault>
        ensures { result ≡ stamp_of self ticks }
    {
        let tick = 10u128.pow(u32::from(NANOSECOND_DIGITS.saturating_sub(self.resolution)));
        let ticked = u128::from(ticks) * tick;
        let offset = u128::from(self.offset.unsigned_abs()) * NANOSECONDS;
        let stamp = if self.offset < 0 {
            if ticked < offset {
                return Err(CaptureFault::StampRange);
            }
            ticked - offset
        } else {
            ticked + offset
        };
        u64::try_from(stamp).map_err(|_| CaptureFault::StampRange)
    }
}

/// The clock in an interface's options.
#[tactic(auto, unfolding(crate::specs::Clocks::clock))]
pub fn clock(order: ByteOrder, options: &[u8]) -> Result<Interface, CaptureFault>
    ensures { result ≡ clock order options.now }
{
    let resolution = resolution(order, options)?;
    let offset = match number_option(order, options, IF_TSOFFSET)? {
        None => 0,
        Some(seconds) => seconds.cast_signed(),
    };
    Ok(Interface { offset, resolution })
}

#[tactic(auto, unfolding(crate::specs::Clocks::resolution))]
fn resolution(order: ByteOrder, options: &[u8]) -> Result<u8, CaptureFault>
    ensures { result ≡ resolution order options.now }
{
    match first_option(order, options, IF_TSRESOL)? {
        None => Ok(DEFAULT_RESOLUTION),
        Some([resolution]) => Ok(*resolution),
        Some(_) => Err(CaptureFault::Length),
    }
}
