//! The text for arguments that clap refuses. It is the same each time, and free of bytes that
//! control a terminal.
#![tactic(auto)]

use clap::error::ErrorKind;
use clap::{Command, Error};
use explain_text::Escaped;
use std::alloc::{AllocError, Global};
use std::convert::AsStr;

/// The arguments, with each byte escaped that would control a terminal.
pub fn escaped_words<N: AsStr>(alloc: Global, words: &[N]) -> Result<Vec<String>, AllocError> {
    let mut escaped = Vec::new(alloc);
    for word in words {
        let word = Escaped {
            bytes: word.as_str().as_bytes(),
        };
        escaped.push(format!(in alloc; "{word}")?)?;
    }
    Ok(escaped)
}

/// The text of an error of clap.
fn error_text(alloc: Global, error: Error) -> Result<String, AllocError> {
    let text = format!(in alloc; "{error}")?;
    if error.kind() == ErrorKind::OutOfMemory {
        return Err(AllocError);
    }
    Ok(text)
}

/// The error of clap for these arguments, or the usage if clap accepts them. Since parsing uses a
/// command up, it takes the same one again, for the usage.
pub fn usage_text<'a>(
    alloc: Global,
    command: Command<'a>,
    mut again: Command<'a>,
    escaped: &'a [String],
) -> Result<String, AllocError> {
    let _matches = match command.try_get_matches_from(escaped) {
        Ok(matches) => matches,
        Err(error) => return error_text(alloc, error),
    };
    again.render_usage()
}
