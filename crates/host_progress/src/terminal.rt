//! Whether standard error is a terminal.

ghost use Rattle.std.specs.Prelude.{◌≡◌, ◌==◌, ◌||◌, ◌&&◌, nat_le};

use std::fs;
use std::fs::{File, OpenOptions};
use std::os::unix::fs::MetadataExt;
use std::rt::Files;

/// The name of standard error.
const STANDARD_ERROR: &str = "/proc/self/fd/2";

/// Whether a device with this major number is a terminal of Linux: a console or a serial line, the
/// terminal of a process, or a pseudoterminal.
fn is_terminal(major: u64) -> bool
    ensures { result ≡ (((major == 4) || (major == 5)) || (nat_le 136 major && nat_le major 143)) }
{
    major == 4 || major == 5 || (136..=143).contains(&major)
}

/// Standard error, if it is a terminal that can be written to.
pub fn open_terminal<R: Files<File = File>>(rt: &R) -> Option<File> {
    let Ok(metadata) = fs::metadata(rt, STANDARD_ERROR) else {
        return None;
    };
    // a device's number has its major number in its bits 8 to 19
    if !is_terminal((metadata.rdev() >> 8) & 0xfff) {
        return None;
    }
    OpenOptions::new().write(true).open(rt, STANDARD_ERROR).ok()
}
