//! Makes credentials from a configuration, or from a secret and captures.

ghost use Rattle.prep_program.specs.Answered.{IsSuccess};

use crate::source::{PIECE, Source};
use crate::stop::Stop;
use crate::text::{read_conf_text, read_secret_text};
use crate::text_fault::{TextFault, TextFaultKind};
use audit_model::{Listed, Sink, put_all};
use audit_pcapng::CaptureFault;
use prep_join::JoinFault;
use prep_users::{Roll, Scan, Secret, Wanted, text_of, wanted_of};
use std::alloc::Global;

/// The source of the users.
#[derive(Clone, Copy)]
pub enum UsersSource<'a> {
    /// The file of coturn's configuration.
    Configuration(&'a str),
    /// The file of a secret.
    Secret(&'a str),
}

/// The arguments of the command `users`.
#[derive(Drop)]
pub struct UsersRequest<'a> {
    pub source: UsersSource<'a>,
    pub realm: Option<&'a str>,
    pub captures: Vec<&'a str>,
}

/// The fault of a capture, by its number.
fn stop_of(capture: u32, fault: CaptureFault) -> Stop {
    Stop::of_capture(capture, JoinFault::Capture(fault))
}

/// Passes the payloads of a capture to the roll, from its first byte to its last.
fn scan_capture<S: Source>(
    alloc: Global,
    source: &mut S,
    name: &str,
    capture: u32,
    roll: &mut Roll,
) -> Result<(), Stop> {
    let mut scan = Scan::new(alloc);
    let mut piece = vec![in alloc; 0u8; PIECE]?;
    let mut at = 0u64;
    'pieces: for _ in 0..u64::MAX {
        let read = source.piece(name, at, &mut piece)?;
        if read == 0 {
            return scan.finish().map_err(|fault| stop_of(capture, fault));
        }
        if let Err(fault) = scan.feed(roll, &piece[..read]) {
            return Err(stop_of(capture, fault));
        }
        let Some(next) = at.checked_add(read as u64) else {
            return Err(Stop::Read);
        };
        at = next;
    }
    Err(Stop::Read)
}

/// Writes the users of captures whose requests are signed with passwords made from these secrets,
/// and notes about the others.
fn write_signed<S: Source, O: Sink, E: Sink>(
    alloc: Global,
    mut roll: Roll,
    captures: &[&str],
    source: &mut S,
    out: &mut O,
    err: &mut E,
) -> Result<u8, Stop>
    ensures { IsSuccess result }
{
    if captures.is_empty() {
        return Err(Stop::Words("users of a secret need captures"));
    }
    let mut capture = 0u32;
    for name in captures {
        scan_capture(alloc, source, name, capture, &mut roll)?;
        capture = capture.saturating_add(1);
    }
    let text = text_of(alloc, roll.accounts())?;
    put_all(out, &text)?;
    let notes = roll.notes()?;
    put_all(err, notes.as_bytes())?;
    Ok(0)
}

/// Writes a line of a credentials text for each user.
pub fn run_users<S: Source, O: Sink, E: Sink>(
    alloc: Global,
    request: &UsersRequest<'_>,
    source: &mut S,
    out: &mut O,
    err: &mut E,
) -> Result<u8, Stop>
    ensures { IsSuccess result }
{
    let captures = request.captures.as_slice();
    match request.source {
        UsersSource::Secret(file) => {
            let text = read_secret_text(alloc, source, file)?;
            let mut secrets = Listed::new(alloc);
            secrets.push(secret_of(alloc, &text)?)?;
            let realm = realm_of(alloc, request.realm)?;
            let roll = Roll::new(alloc, secrets, realm);
            write_signed(alloc, roll, captures, source, out, err)
        }
        UsersSource::Configuration(file) => {
            let text = read_conf_text(alloc, source, file)?;
            let realm = request.realm.map(|realm| realm.as_bytes());
            match wanted_of(alloc, &text, realm)? {
                Wanted::Named(accounts) => {
                    let text = text_of(alloc, &accounts)?;
                    put_all(out, &text)?;
                    Ok(0)
                }
                Wanted::Signed { secrets, realm } => {
                    let roll = Roll::new(alloc, Listed::from(secrets), Some(realm));
                    write_signed(alloc, roll, captures, source, out, err)
                }
            }
        }
    }
}

/// The secret of a file's text: its line, without the line feed.
fn secret_of(alloc: Global, text: &[u8]) -> Result<Secret, Stop> {
    let bytes = text.strip_suffix(b"\n").unwrap_or(text);
    if bytes.is_empty() {
        return Err(Stop::Text(TextFault {
            line: 1,
            kind: TextFaultKind::NoSecret,
        }));
    }
    Ok(Secret {
        bytes: Listed::from(Vec::from_slice(alloc, bytes)?),
    })
}

fn realm_of(alloc: Global, realm: Option<&str>) -> Result<Option<Listed<u8>>, Stop> {
    match realm {
        Some(realm) => Ok(Some(Listed::from(Vec::from_slice(alloc, realm.as_bytes())?))),
        None => Ok(None),
    }
}
