//! The credentials of `ready`: a file, or the users of coturn's configuration.

use super::copying::copy;
use super::work::{Staged, Work, files_of};
use super::{PolicySource, ReadyRequest};
use crate::collected::Collected;
use crate::maker::{Maker, append_all};
use crate::source::Source;
use crate::stop::Stop;
use crate::users::{UsersRequest, UsersSource, run_users};
use audit_model::Sink;
use std::alloc::Global;

/// The most bytes of credentials that are copied.
const MOST_CREDS: u64 = 16_777_216;

/// Writes the credentials, if there are any.
pub fn users_step<S: Source, M: Maker, E: Sink>(
    alloc: Global,
    request: &ReadyRequest<'_>,
    captures: &[Staged],
    work: &mut Work,
    source: &mut S,
    maker: &mut M,
    err: &mut E,
) -> Result<bool, Stop> {
    match (request.creds, request.source) {
        (Some(name), _) => {
            copy_credentials(alloc, name, work, source, maker)?;
            Ok(true)
        }
        (None, PolicySource::Configuration(name)) => {
            configured(alloc, name, captures, work, source, maker, err)
        }
        (None, PolicySource::Policy(_)) => Ok(false),
    }
}

/// Copies a file of credentials.
fn copy_credentials<S: Source, M: Maker>(
    alloc: Global,
    name: &str,
    work: &mut Work,
    source: &mut S,
    maker: &mut M,
) -> Result<(), Stop> {
    let file = work.file("creds")?;
    copy(alloc, name, file.as_str(), MOST_CREDS, source, maker)?;
    work.begin_to("creds", "cat")?;
    work.operand(name)?;
    work.end_line()
}

/// Writes the users of a configuration, and those whose requests in the captures are signed with
/// its secret.
fn configured<S: Source, M: Maker, E: Sink>(
    alloc: Global,
    name: &str,
    captures: &[Staged],
    work: &mut Work,
    source: &mut S,
    maker: &mut M,
    err: &mut E,
) -> Result<bool, Stop> {
    let mut text = Collected::new(alloc);
    match users_of(alloc, name, captures, source, &mut text, err) {
        Ok(()) => {}
        Err(Stop::Users(fault)) => {
            let line = format!(in alloc; "note {fault}")?;
            work.say(line.as_bytes())?;
            return Ok(false);
        }
        Err(stop) => return Err(stop),
    }
    write_users(text.as_slice(), work, maker)?;
    work.begin_to("creds", "turnprep users --turnserver-conf")?;
    work.operand(name)?;
    work.captures(captures)?;
    work.end_line()?;
    Ok(true)
}

/// Returns the text of the credentials.
fn users_of<'x, S: Source, E: Sink>(
    alloc: Global,
    name: &'x str,
    captures: &'x [Staged],
    source: &mut S,
    text: &mut Collected,
    err: &mut E,
) -> Result<(), Stop> {
    let users = UsersRequest {
        source: UsersSource::Configuration(name),
        realm: None,
        captures: files_of(alloc, captures)?,
    };
    run_users(alloc, &users, source, text, err)?;
    Ok(())
}

/// Writes the credentials.
fn write_users<M: Maker>(text: &[u8], work: &Work, maker: &mut M) -> Result<(), Stop> {
    let file = work.file("creds")?;
    maker.make(file.as_str())?;
    append_all(maker, text)?;
    maker.publish()?;
    Ok(())
}
