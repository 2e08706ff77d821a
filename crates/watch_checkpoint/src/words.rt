//! Parses the words of a line.

ghost use Rattle.std.specs.Prelude.{◌≡◌, Ok, Err, MatchResult};
ghost use Rattle.hex.specs.Hex.{decode_of, decode_sized};
ghost use Rattle.audit_text.specs.Reading.{UnlessMemory};
ghost use Rattle.audit_text.specs.Token.{now_both};
ghost use Rattle.audit_cert.specs.EventLine.{word32_of, word64_of, sight_id_of};
ghost use Rattle.watch_checkpoint.specs.Content.{header_content};
ghost use Rattle.watch_checkpoint.specs.Fault.{is_memory, of_word};
ghost use Rattle.watch_checkpoint.specs.Words.{of_hex, labelled_of, interface_of, permission_of, channel_of, came_of, holder_of_words, words_of, parsed_of, file_of, parsed_header_of, parsed_moment_of};

use crate::checkpoint::Header;
use crate::entry::{Entry, Holder};
use crate::fault::LineKind;
use audit_cuts::{Came, Interface};
use audit_expiry::Lease;
use audit_model::{Addr, Listed, Pair, SightId, read_ip, read_port};
use audit_rules::Channel;
use audit_text::{TokenFault, both, halves, number};
use hex::{FromHex, FromHexError};
use std::alloc::Global;
use watch_ring::RingFile;

/// Parses a number of 32 bits.
fn read_u32(word: &[u8]) -> Result<u32, TokenFault>
    ensures { result ≡ word32_of word.now }
{
    match number(word, 4_294_967_295) {
        Ok(value) => Ok(value as u32),
        Err(fault) => Err(fault),
    }
}

/// Parses a number of 64 bits.
fn read_u64(word: &[u8]) -> Result<u64, TokenFault>
    ensures { result ≡ word64_of word.now }
{
    number(word, 18_446_744_073_709_551_615)
}

/// Parses a sighting, as `64.0`.
#[tactic(auto, unfolding(audit_cert::specs::EventLine::sight_id_of))]
fn read_sight(word: &[u8]) -> Result<SightId, TokenFault>
    ensures { result ≡ sight_id_of word.now }
{
    let (iface, index) = halves(word, b'.')?;
    let (iface, index) = both(read_u32(iface), read_u32(index))?;
    Ok(SightId { iface, index })
}

/// Parses a SHA-256 in hexadecimal digits.
fn read_digest(word: &[u8]) -> Result<[u8; 32], TokenFault>
    ensures { result ≡ of_hex (decode_sized word.now 32) }
{
    match <[u8; 32] as FromHex>::from_hex(word) {
        Ok(digest) => Ok(digest),
        Err(_) => Err(TokenFault::Shape),
    }
}

/// Parses a transaction id in hexadecimal digits.
fn read_id(word: &[u8]) -> Result<[u8; 12], TokenFault>
    ensures { result ≡ of_hex (decode_sized word.now 12) }
{
    match <[u8; 12] as FromHex>::from_hex(word) {
        Ok(id) => Ok(id),
        Err(_) => Err(TokenFault::Shape),
    }
}

/// Parses the bytes of a user in hexadecimal digits.
fn read_user(alloc: Global, word: &[u8]) -> Result<Listed<u8>, LineKind>
    ensures { MatchResult result (λ user. of_word (of_hex (decode_of word.now)) ≡ Ok user)
        (λ kind. UnlessMemory is_memory kind (of_word (of_hex (decode_of word.now)))) }
{
    match hex::decode(alloc, word) {
        Ok(bytes) => Ok(Listed::from(bytes)),
        Err(FromHexError::OutOfMemory) => Err(LineKind::Memory),
        Err(_) => Err(LineKind::Line),
    }
}

/// The first word, and what follows the word after it.
#[tactic(auto, unfolding(crate::specs::Words::labelled_of))]
fn labelled(words: &[u8]) -> Result<(&[u8], &[u8]), TokenFault>
    ensures { MatchResult result (λ p. labelled_of words.now ≡ Ok (now_both p)) (λ e. labelled_of words.now ≡ Err e) }
{
    let (value, rest) = halves(words, b' ')?;
    let (_, rest) = halves(rest, b' ')?;
    Ok((value, rest))
}

/// Parses the number and the counts of an interface, as `0 base 0 placed 7`.
#[tactic(auto, unfolding(crate::specs::Words::interface_of))]
fn read_interface(words: &[u8]) -> Result<(u64, Interface), TokenFault>
    ensures { result ≡ interface_of words.now }
{
    let (number, rest) = labelled(words)?;
    let (base, placed) = labelled(rest)?;
    let (number, (base, placed)) = both(read_u64(number), both(read_u64(base), read_u32(placed)))?;
    Ok((number, Interface { base, placed }))
}

/// Parses a permission, as `192.0.2.1 1500000`.
#[tactic(auto, unfolding(crate::specs::Words::permission_of))]
fn read_permission(words: &[u8]) -> Result<(u32, Lease), TokenFault>
    ensures { result ≡ permission_of words.now }
{
    let (ip, until) = halves(words, b' ')?;
    let (ip, until) = both(read_ip(ip), read_u64(until))?;
    Ok((ip, Lease { until }))
}

/// Parses a channel, as `16384 192.0.2.1:9000 1500000`.
#[tactic(auto, unfolding(crate::specs::Words::channel_of))]
fn read_channel(words: &[u8]) -> Result<(u16, Channel), TokenFault>
    ensures { result ≡ channel_of words.now }
{
    let (number, rest) = halves(words, b' ')?;
    let (peer, until) = halves(rest, b' ')?;
    let (number, (peer, until)) = both(read_port(number), both(Addr::read(peer), read_u64(until)))?;
    Ok((
        number,
        Channel {
            lease: Lease { until },
            peer,
        },
    ))
}

/// Parses a sighting and a moment, as `64.0 1500000`.
#[tactic(auto, unfolding(crate::specs::Words::came_of))]
fn read_came(words: &[u8]) -> Result<Came, TokenFault>
    ensures { result ≡ came_of words.now }
{
    let (sight, moment) = halves(words, b' ')?;
    let (sight, moment) = both(read_sight(sight), read_u64(moment))?;
    Ok(Came { sight, moment })
}

/// Parses the words of a client's line after the first one.
#[tactic(auto, unfolding(crate::specs::Words::holder_of_words))]
fn read_holder(alloc: Global, words: &[u8]) -> Result<Holder, LineKind>
    ensures { MatchResult result (λ holder. of_word (holder_of_words words.now) ≡ Ok holder)
        (λ kind. UnlessMemory is_memory kind (of_word (holder_of_words words.now))) }
{
    let (client, rest) = labelled(words)?;
    let (listen, rest) = labelled(rest)?;
    let (relayed, rest) = labelled(rest)?;
    let (user, rest) = labelled(rest)?;
    let (id, until) = labelled(rest)?;
    let (client, listen) = both(Addr::read(client), Addr::read(listen))?;
    let (relayed, until) = both(Addr::read(relayed), read_u64(until))?;
    let id = read_id(id)?;
    let user = read_user(alloc, user)?;
    Ok(Holder {
        pair: Pair { client, listen },
        relayed,
        user,
        id,
        lease: Lease { until },
    })
}

/// What the words say after the first one.
#[tactic(auto, unfolding(crate::specs::Words::words_of))]
fn read_words(alloc: Global, word: &[u8], words: &[u8]) -> Result<Entry, LineKind>
    ensures { MatchResult result (λ entry. of_word (words_of word.now words.now) ≡ Ok entry)
        (λ kind. UnlessMemory is_memory kind (of_word (words_of word.now words.now))) }
{
    if word == b"interface".as_slice() {
        let (number, interface) = read_interface(words)?;
        Ok(Entry::Interface(number, interface))
    } else if word == b"client".as_slice() {
        Ok(Entry::Client(read_holder(alloc, words)?))
    } else if word == b"permission".as_slice() {
        let (ip, lease) = read_permission(words)?;
        Ok(Entry::Permission(ip, lease))
    } else if word == b"channel".as_slice() {
        let (number, channel) = read_channel(words)?;
        Ok(Entry::Channel(number, channel))
    } else if word == b"waits".as_slice() {
        Ok(Entry::Waits(read_came(words)?))
    } else if word == b"owed".as_slice() {
        Ok(Entry::Owed(read_came(words)?))
    } else {
        Err(LineKind::Line)
    }
}

/// What the words of a line say, whether or not the line is the text of that.
#[tactic(auto, unfolding(crate::specs::Words::parsed_of))]
pub fn parse_entry(alloc: Global, line: &[u8]) -> Result<Entry, LineKind>
    ensures { MatchResult result (λ entry. of_word (parsed_of line.now) ≡ Ok entry)
        (λ kind. UnlessMemory is_memory kind (of_word (parsed_of line.now))) }
{
    let (word, words) = halves(line, b' ')?;
    read_words(alloc, word, words)
}

/// Parses the number of a file of a ring, and the second in which it was opened.
fn read_file(file: &[u8], opened: &[u8]) -> Result<RingFile, TokenFault>
    ensures { MatchResult result (λ f. file_of file.now opened.now ≡ Ok (f.number, f.opened)) (λ e. file_of file.now opened.now ≡ Err e) }
{
    let (file, opened) = both(number(file, 99_999), number(opened, 99_999_999_999_999))?;
    Ok(RingFile {
        opened,
        number: file as u32,
    })
}

/// What the words of the header say.
#[tactic(auto, unfolding(crate::specs::Words::parsed_header_of))]
pub fn parse_header(line: &[u8]) -> Result<Header, TokenFault>
    ensures { MatchResult result (λ header. parsed_header_of line.now ≡ Ok (header_content header)) (λ e. parsed_header_of line.now ≡ Err e) }
{
    let (_, rest) = labelled(line)?;
    let (policy, rest) = labelled(rest)?;
    let (users, rest) = labelled(rest)?;
    let (begin, rest) = labelled(rest)?;
    let (file, opened) = labelled(rest)?;
    let policy = read_digest(policy)?;
    let users = read_digest(users)?;
    let (begin, file) = both(read_u64(begin), read_file(file, opened))?;
    Ok(Header {
        policy,
        users,
        begin,
        file,
    })
}

/// What the words of the moment's line say.
#[tactic(auto, unfolding(crate::specs::Words::parsed_moment_of))]
pub fn parse_moment(line: &[u8]) -> Result<u64, TokenFault>
    ensures { result ≡ parsed_moment_of line.now }
{
    let (_, moment) = halves(line, b' ')?;
    read_u64(moment)
}
