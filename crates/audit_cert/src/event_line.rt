//! Parses the words of a line.

ghost use Rattle.std.specs.Prelude.{◌≡◌};
ghost use Rattle.audit_cert.specs.EventLine.{word32_of, word64_of, sight_id_of, event_key_of, cert_skew_of, placed_of, act_of, event_of};

use audit_model::{CertSkew, Event, Key, SightId};
use audit_text::{TokenFault, both, halves, number};

/// Parses a number of 32 bits.
fn read_u32(word: &[u8]) -> Result<u32, TokenFault>
    ensures { result ≡ word32_of word.now }
{
    match number(word, 4_294_967_295) {
        Ok(value) => Ok(value as u32),
        Err(fault) => Err(fault),
    }
}

/// Parses a number of 64 bits.
fn read_u64(word: &[u8]) -> Result<u64, TokenFault>
    ensures { result ≡ word64_of word.now }
{
    number(word, 18_446_744_073_709_551_615)
}

/// Parses a sighting, as `64.0`.
#[tactic(auto, unfolding(crate::specs::EventLine::sight_id_of))]
fn read_sight(word: &[u8]) -> Result<SightId, TokenFault>
    ensures { result ≡ sight_id_of word.now }
{
    let (iface, index) = halves(word, b'.')?;
    let (iface, index) = both(read_u32(iface), read_u32(index))?;
    Ok(SightId { iface, index })
}

/// Parses a moment and a tie, as `1500000 0`.
#[tactic(auto, unfolding(crate::specs::EventLine::event_key_of))]
fn read_key(words: &[u8]) -> Result<Key, TokenFault>
    ensures { result ≡ event_key_of words.now }
{
    let (moment, tie) = halves(words, b' ')?;
    let (moment, tie) = both(read_u64(moment), read_u32(tie))?;
    Ok(Key { moment, tie })
}

/// Parses the skew of an interface, as `64 400`.
#[tactic(auto, unfolding(crate::specs::EventLine::cert_skew_of))]
pub fn read_skew(words: &[u8]) -> Result<CertSkew, TokenFault>
    ensures { result ≡ cert_skew_of words.now }
{
    let (iface, microseconds) = halves(words, b' ')?;
    let (iface, microseconds) = both(read_u32(iface), read_u64(microseconds))?;
    Ok(CertSkew {
        iface,
        microseconds,
    })
}

/// Parses a sighting and its key, as `0.1 1500000 0`.
#[tactic(auto, unfolding(crate::specs::EventLine::placed_of))]
pub fn read_placed(words: &[u8]) -> Result<(SightId, Key), TokenFault>
    ensures { result ≡ placed_of words.now }
{
    let (sight, key) = halves(words, b' ')?;
    both(read_sight(sight), read_key(key))
}

/// Parses an arrival, a departure and a key, as `0.0 0.1 1000000 1`.
#[tactic(auto, unfolding(crate::specs::EventLine::act_of))]
fn read_act(words: &[u8]) -> Result<(SightId, (SightId, Key)), TokenFault>
    ensures { result ≡ act_of words.now }
{
    let (sight, rest) = halves(words, b' ')?;
    both(read_sight(sight), read_placed(rest))
}

/// Parses the event of a line that begins with this word.
#[tactic(auto, unfolding(crate::specs::EventLine::event_of))]
pub fn read_event(word: &[u8], words: &[u8]) -> Result<Event, TokenFault>
    ensures { result ≡ event_of word.now words.now }
{
    if word == b"in".as_slice() {
        let (sight, key) = read_placed(words)?;
        Ok(Event::In { sight, key })
    } else if word == b"act".as_slice() {
        let (sight, (gives, key)) = read_act(words)?;
        Ok(Event::Act { sight, gives, key })
    } else if word == b"out".as_slice() {
        let (sight, key) = read_placed(words)?;
        Ok(Event::Out { sight, key })
    } else {
        Err(TokenFault::Shape)
    }
}
