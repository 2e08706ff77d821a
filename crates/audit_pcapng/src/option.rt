//! The options at the end of a block.

ghost use Rattle.std.specs.Prelude.{◌≡◌, ◌+◌, ◌<◌, ◌≤◌, ◌^◌, length, Ok, Err, MatchResult};
ghost use Rattle.audit_pcapng.specs.Numbers.{padded};
ghost use Rattle.std.specs.Option.{option_map};
ghost use Rattle.audit_pcapng.specs.Options.{first_of, first_option, number_option, drop_count};

use crate::byte_order::ByteOrder;
use crate::fault::CaptureFault;
use crate::wire::END_OF_OPTIONS;

const CODE_AND_LENGTH: usize = 4;

/// A length with its padding to a multiple of 4.
pub fn padded(length: u32) -> usize
    ensures { result ≡ padded length }
{
    (length as usize + 3) / 4 * 4
}

/// The value of the first option with this code, if there is one (section 3.5). Any option that
/// extends past the end of the list is a fault; the bytes after the option that ends the list are
/// not read.
pub fn first_option<'a>(
    order: ByteOrder,
    list: &'a [u8],
    code: u16,
) -> Result<Option<&'a [u8]>, CaptureFault>
    ensures { MatchResult result
        (λ found. first_option order list.now code ≡ Ok (option_map (λ value. value.now) found))
        (λ fault. first_option order list.now code ≡ Err fault) }
{
    let mut found: Option<&[u8]> = None;
    let mut rest = list;
    for _ in 0..list.len() {
        if rest.is_empty() {
            break;
        }
        if rest.len() < CODE_AND_LENGTH {
            return Err(CaptureFault::Length);
        }
        let option = order.u16_at(rest, 0);
        if option == END_OF_OPTIONS {
            break;
        }
        let length = u32::from(order.u16_at(rest, 2));
        let whole = padded(length);
        let (_, from) = rest.split_at(CODE_AND_LENGTH);
        if from.len() < whole {
            return Err(CaptureFault::Length);
        }
        let (value, _) = from.split_at(length as usize);
        found = first_of(found, option == code, value);
        let (_, after) = from.split_at(whole);
        rest = after;
    }
    Ok(found)
}

/// The value that was found before, or else this value if `is_sought`.
fn first_of<'a>(found: Option<&'a [u8]>, is_sought: bool, value: &'a [u8]) -> Option<&'a [u8]>
    ensures { option_map (λ value. value.now) result ≡ first_of (option_map (λ value. value.now) found.entry) is_sought value.now }
{
    match found {
        Some(earlier) => Some(earlier),
        None if is_sought => Some(value),
        None => None,
    }
}

/// The number that the first option with this code has in 8 bytes, if there is one.
#[tactic(auto, unfolding(crate::specs::Options::number_option))]
pub fn number_option(order: ByteOrder, list: &[u8], code: u16) -> Result<Option<u64>, CaptureFault>
    ensures { result ≡ number_option order list.now code }
{
    match first_option(order, list, code)? {
        None => Ok(None),
        Some(value) => {
            if value.len() != 8 {
                return Err(CaptureFault::Length);
            }
            Ok(Some(order.u64_at(value, 0)))
        }
    }
}

/// The option's count of dropped packets: 0 if the option is absent.
#[tactic(auto, unfolding(crate::specs::Options::drop_count))]
pub fn drop_count(order: ByteOrder, list: &[u8], code: u16) -> Result<u64, CaptureFault>
    ensures { result ≡ drop_count order list.now code }
{
    Ok(number_option(order, list, code)?.unwrap_or(0))
}
