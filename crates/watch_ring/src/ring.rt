//! The names of the files of a ring.

ghost use Rattle.std.specs.Prelude.{◌≡◌, ◌≢◌, ◌++◌, IfSome, IfOk, Some, string_bytes};
ghost use Rattle.watch_ring.specs.declared.ring_file.RingFile.{RingFile};
ghost use Rattle.watch_ring.specs.Names.{IsSplit, name_of};

use crate::digits::read_field;
use crate::ring_file::RingFile;
use std::alloc::{AllocError, Global};

/// The ring that dumpcap writes if it gets `-b` and `-w PREFIX.EXTENSION`: its files have the names
/// `PREFIX_NNNNN_YYYYMMDDHHMMSS.EXTENSION`. No name has a folder here.
#[derive(Clone, Copy, Debug)]
pub struct Ring<'a> {
    /// The name up to its last dot.
    pub prefix: &'a str,
    /// The rest, with the dot. It is empty if the name has no dot.
    pub extension: &'a str,
}

impl<'a> Ring<'a> {
    /// The ring of the name that `-w` gets.
    pub fn new(name: &'a str) -> Self
        ensures { IsSplit name.now result.prefix.now result.extension.now }
    {
        match name.rfind('.') {
            Some(at) => {
                let (prefix, extension) = name.split_at(at);
                Ring { prefix, extension }
            }
            None => Ring {
                prefix: name,
                extension: "",
            },
        }
    }

    /// The file of the ring with this name. No file of the ring has a name of another form, as that
    /// of a compressed file, or by `-b nametimenum:2`.
    pub fn parse(&self, name: &str) -> Option<RingFile>
        ensures found { IfSome result (λ file. name.now ≡ name_of self.now.prefix.now self.now.extension.now file) }
        ensures only { (file : RingFile) → name.now ≡ name_of self.now.prefix.now self.now.extension.now file → result ≡ Some file }
    {
        let rest = name.as_bytes().strip_prefix(self.prefix.as_bytes())?;
        let (number, rest) = read_field(rest, 5)?;
        let (opened, rest) = read_field(rest, 14)?;
        if rest != self.extension.as_bytes() {
            return None;
        }
        Some(RingFile {
            opened,
            number: number as u32,
        })
    }

    /// The name of a file of the ring.
    pub fn file_name(&self, alloc: Global, file: &RingFile) -> Result<String, AllocError>
        ensures { IfOk result (λ name. string_bytes name ≡ name_of self.now.prefix.now self.now.extension.now file.now) }
    {
        format!(in alloc;
            "{}_{:05}_{:014}{}",
            self.prefix, file.number, file.opened, self.extension
        )
    }
}
