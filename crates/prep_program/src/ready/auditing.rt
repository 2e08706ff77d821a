//! The command that audits the folder of `ready`.

use crate::folder::path_in;
use prep_steps::push_words;
use std::alloc::{AllocError, Global};

/// The command that audits captures with the policy and the credentials of a folder.
pub fn audit_line(
    alloc: Global,
    folder: &str,
    captures: &[String],
    has_users: bool,
) -> Result<Vec<u8>, AllocError> {
    let mut line = Vec::from_slice(alloc, b"turnaudit audit --policy")?;
    push_path(alloc, &mut line, folder, "policy")?;
    line.extend_from_slice(b" --creds")?;
    if has_users {
        push_path(alloc, &mut line, folder, "creds")?;
    } else {
        line.extend_from_slice(b" CREDENTIALS")?;
    }
    for name in captures {
        push_words(&mut line, &[name.as_str()])?;
    }
    Ok(line)
}

/// Appends a file of a folder as an argument.
fn push_path(
    alloc: Global,
    line: &mut Vec<u8>,
    folder: &str,
    name: &str,
) -> Result<(), AllocError> {
    let path = path_in(alloc, folder, name)?;
    push_words(line, &[path.as_str()])
}
