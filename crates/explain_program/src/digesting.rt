//! The digests of files as they are read, so that the evidence page has the digests of the bytes
//! that were judged, and whether a later reading returned other bytes.

ghost use Rattle.std.specs.Prelude.{◌≡◌};

use crate::system::{Explaining, Trouble};
use audit_files::{ReadFailed, Source};
use explain_page::{Digests, FileReading};
use std::alloc::{AllocError, Global};

/// The files of a command, before any is read.
pub fn unread(
    alloc: Global,
    policy: &str,
    users: Option<&str>,
    certificate: Option<&str>,
    captures: &[&str],
) -> Result<Vec<FileReading>, AllocError> {
    let mut files = Vec::new(alloc);
    files.push(FileReading::new(alloc, policy)?)?;
    if let Some(name) = users {
        files.push(FileReading::new(alloc, name)?)?;
    }
    if let Some(name) = certificate {
        files.push(FileReading::new(alloc, name)?)?;
    }
    for name in captures {
        files.push(FileReading::new(alloc, name)?)?;
    }
    Ok(files)
}

/// A source that digests the bytes of the files that it watches.
#[derive(Drop)]
pub struct Digesting<S> {
    inner: S,
    files: Vec<FileReading>,
    /// The first of these files that returned other bytes when it was read again.
    changed: Option<usize>,
}

impl<S> Digesting<S> {
    /// Watches no file yet.
    pub fn new(alloc: Global, inner: S) -> Self
        ensures { result.inner ≡ inner }
    {
        Digesting {
            inner,
            files: Vec::new(alloc),
            changed: None,
        }
    }

    /// Watches these files from now on, before they are read, and no others.
    pub fn watch(&mut self, files: Vec<FileReading>)
        ensures { self.new.inner ≡ self.old.inner }
    {
        self.files = files;
        self.changed = None;
    }

    /// The digests of the bytes of a file at its first reading; `None` if it isn't watched, or
    /// wasn't read to its end.
    pub fn digests(&self, name: &str) -> Option<Digests> {
        self.files.get(self.place_of(name)?)?.digests()
    }

    /// The first file that returned other bytes when it was read again.
    pub fn changed(&self) -> Option<&str> {
        let file = self.files.get(self.changed?)?;
        Some(file.name())
    }

    /// The index of a watched file.
    fn place_of(&self, name: &str) -> Option<usize> {
        self.files.iter().position(|file| file.name() == name)
    }

    /// Records the bytes that were read.
    fn note(&mut self, name: &str, at: u64, piece: &[u8])
        ensures { self.new.inner ≡ self.old.inner }
    {
        let Some(place) = self.place_of(name) else {
            return;
        };
        if place < self.files.len() && self.files[place].take(at, piece) && self.changed.is_none() {
            self.changed = Some(place);
        }
    }
}

impl<S: Source> Source for Digesting<S> {
    ghost holds = { λ digesting. S.holds digesting.inner };

    ghost may_fail = { λ digesting. S.may_fail digesting.inner };

    fn piece(&mut self, name: &str, at: u64, into: &mut [u8]) -> Result<usize, ReadFailed> {
        match self.inner.piece(name, at, into) {
            Ok(read) => {
                self.note(name, at, &into[..read]);
                Ok(read)
            }
            Err(failed) => Err(failed),
        }
    }

    /// Watches no file: the bytes that it reads are not digested.
    fn beside(&self, alloc: Global) -> Self {
        Digesting::new(alloc, self.inner.beside(alloc))
    }
}

impl<S: Explaining> Explaining for Digesting<S> {
    fn trouble(&mut self, name: &str) -> Option<Trouble> {
        self.inner.trouble(name)
    }

    fn is_repeatable(&self, name: &str) -> bool {
        self.inner.is_repeatable(name)
    }
}
