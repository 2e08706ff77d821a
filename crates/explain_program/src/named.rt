//! Names and texts from files, in plain characters.

use crate::command_line::Inputs;
use crate::digesting::Digesting;
use crate::reading::{CaptureFacts, capture_facts};
use audit_files::Source;
use explain_page::{Digests, Role};
use explain_text::Quoted;
use std::alloc::{AllocError, Global};

/// A file that was read, with its name in plain characters.
#[derive(Drop)]
pub struct NamedFile {
    pub role: Role,
    pub name: String,
    /// Of the bytes that were judged. `None` for users: a digest would help to guess passwords.
    pub digests: Option<Digests>,
}

/// A user's name and realm, in plain characters.
#[derive(Drop)]
pub struct NamedUser {
    pub name: String,
    pub realm: String,
}

/// Bytes in plain characters.
fn plain(alloc: Global, bytes: &[u8]) -> Result<String, AllocError> {
    let quoted = Quoted { bytes };
    format!(in alloc; "{quoted}")
}

/// The digests of the judged bytes of a file, unless it has passwords.
pub fn filed_digests<S: Source>(source: &Digesting<S>, role: Role, name: &str) -> Option<Digests> {
    if role == Role::Users {
        return None;
    }
    source.digests(name)
}

/// A file with its digests.
fn named<S: Source>(
    alloc: Global,
    source: &Digesting<S>,
    role: Role,
    name: &str,
) -> Result<NamedFile, AllocError> {
    Ok(NamedFile {
        role,
        name: plain(alloc, name.as_bytes())?,
        digests: filed_digests(source, role, name),
    })
}

/// The facts of each capture, in order.
pub fn facts_of_captures<S: Source>(
    alloc: Global,
    source: &mut S,
    captures: &[&str],
) -> Result<Vec<CaptureFacts>, AllocError> {
    let mut all = Vec::new(alloc);
    for name in captures {
        all.push(capture_facts(alloc, source, *name)?)?;
    }
    Ok(all)
}

/// The files of a request, in the order in which they are read.
pub fn named_files<S: Source>(
    alloc: Global,
    source: &Digesting<S>,
    inputs: &Inputs<'_>,
) -> Result<Vec<NamedFile>, AllocError> {
    let mut files = Vec::new(alloc);
    files.push(named(alloc, source, Role::Policy, inputs.policy)?)?;
    if let Some(name) = inputs.credentials {
        files.push(named(alloc, source, Role::Users, name)?)?;
    }
    if let Some(name) = inputs.certificate {
        files.push(named(alloc, source, Role::Certificate, name)?)?;
    }
    for name in &inputs.captures {
        files.push(named(alloc, source, Role::Capture, *name)?)?;
    }
    Ok(files)
}

/// The lines of a text, each in plain characters.
pub fn plain_lines(alloc: Global, text: &[u8]) -> Result<String, AllocError> {
    let mut printed = String::new(alloc);
    for line in text.split(|byte| *byte == b'\n') {
        if !line.is_empty() {
            printed.push_str(plain(alloc, line)?.as_str())?;
            printed.push_str("\n")?;
        }
    }
    Ok(printed)
}

/// The users of a credentials text: of each line the name and the realm, not the password.
pub fn users_in(alloc: Global, text: &[u8]) -> Result<Vec<NamedUser>, AllocError> {
    let mut users = Vec::new(alloc);
    for line in text.split(|byte| *byte == b'\n') {
        let mut words = line.split(|byte| *byte == b'\t');
        if let (Some(name), Some(realm), Some(_)) = (words.next(), words.next(), words.next()) {
            users.push(NamedUser {
                name: plain(alloc, name)?,
                realm: plain(alloc, realm)?,
            })?;
        }
    }
    Ok(users)
}
