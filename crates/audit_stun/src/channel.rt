//! Reads ChannelData.

ghost use Rattle.std.specs.Prelude.{◌≡◌, ℕ, List, length, option_map, IfSome, IsSomeAnd};
ghost use Rattle.audit_stun.specs.ChannelData.{IsChannelData, channel_data_of};

/// The number, the data and the number of bytes past the data, if the payload is ChannelData (RFC
/// 8656, section 12.4). A number's two highest bits are 01.
#[tactic(auto, unfolding(crate::specs::ChannelData::channel_data_of))]
pub fn channel_data(payload: &[u8]) -> Option<(u16, &[u8], usize)>
    ensures value { option_map (λ read. (read.0, read.1.now, read.2)) result
        ≡ channel_data_of payload.now }
    ensures found { IfSome result (λ read. (after : List ℕ)
        × IsChannelData payload.now read.0 read.1.now after × (read.2 ≡ length after)) }
    // No other number, data and rest fit the payload, and if some do they are found.
    ensures only { (number : ℕ) (bytes after : List ℕ)
        → IsChannelData payload.now number bytes after → IsSomeAnd result
        (λ read. (read.0 ≡ number) × (read.1.now ≡ bytes) × (read.2 ≡ length after)) }
{
    let [number_high, number_low, length_high, length_low, rest @ ..] = payload else {
        return None;
    };
    let number = u16::from_be_bytes([*number_high, *number_low]);
    let length = u16::from_be_bytes([*length_high, *length_low]) as usize;
    if number >> 14 != 0b01 || rest.len() < length {
        return None;
    }
    Some((number, &rest[..length], rest.len() - length))
}
