//! Output files of a folder that are named as the input files.

ghost use Rattle.std.specs.Prelude.{◌≡◌, ◌++◌, IfOk, codes, string_bytes};

use crate::stop::Stop;
use std::alloc::{AllocError, Global};
use std::path::Path;

/// The path of a file in a folder.
pub fn path_in(alloc: Global, folder: &str, name: &str) -> Result<String, AllocError>
    ensures { IfOk result (λ path. string_bytes path ≡ folder.now ++ (codes "/" ++ name.now)) }
{
    format!(in alloc; "{folder}/{name}")
}

/// The last part of a capture's name. A name without one is refused.
pub fn last_part(name: &str) -> Result<&str, Stop> {
    match Path::new(name).file_name() {
        Some(part) => Ok(part),
        None => Err(Stop::Read),
    }
}

/// Refuses captures if two have the same last part. The cost is their number, squared.
pub fn check_parts(names: &[&str]) -> Result<(), Stop> {
    let mut number = 0u32;
    for (at, name) in names.iter().enumerate() {
        let part = last_part(name)?;
        for earlier in &names[..at] {
            if last_part(earlier)? == part {
                return Err(Stop::SameName(number));
            }
        }
        number = number.saturating_add(1);
    }
    Ok(())
}
