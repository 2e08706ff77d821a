//! Which files can be read more than once.

use std::fs;
use std::os::unix::fs::FileTypeExt;
use std::rt::Files;

/// Whether a file can be read more than once; a pipe and a socket can't. The check doesn't open the
/// file, which would wait for a pipe's writer. For a missing file it returns true: reading it
/// reports the error.
pub fn is_repeatable<R: Files>(rt: &R, name: &str) -> bool {
    match fs::metadata(rt, name) {
        Ok(metadata) => {
            let kind = metadata.file_type();
            !(kind.is_fifo() || kind.is_socket())
        }
        Err(_) => true,
    }
}
