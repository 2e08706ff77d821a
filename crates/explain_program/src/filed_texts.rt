//! Texts on the evidence page: the users without passwords, and the list of what was excluded.

use crate::command_line::Inputs;
use crate::named::{NamedUser, plain_lines, users_in};
use crate::reading::text_of;
use audit_files::{Source, Stop};
use std::alloc::{AllocError, Global};

/// At most this number of bytes of the list of what was excluded is on the page.
const MOST_EXCLUDED: usize = 16_777_216;

/// At most this number of bytes of the users is read.
const MOST_USERS: usize = 16_777_216;

/// The users that a file names.
pub fn users_of<S: Source>(
    alloc: Global,
    source: &mut S,
    inputs: &Inputs<'_>,
) -> Result<Vec<NamedUser>, AllocError> {
    match inputs.credentials {
        Some(name) => {
            let text = text_of(alloc, source, name, MOST_USERS)?;
            users_in(alloc, text.as_slice())
        }
        None => Ok(Vec::new(alloc)),
    }
}

/// The list of what was excluded, if one is named.
pub fn excluded_of<S: Source>(
    alloc: Global,
    source: &mut S,
    name: Option<&str>,
) -> Result<Option<String>, Stop> {
    let Some(name) = name else {
        return Ok(None);
    };
    let text = text_of(alloc, source, name, MOST_EXCLUDED)?;
    if text.is_empty() {
        return Err(Stop::Read);
    }
    Ok(Some(plain_lines(alloc, text.as_slice())?))
}
