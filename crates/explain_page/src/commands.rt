//! The commands that repeat a verdict.

use crate::facts::{Facts, FileRow, Role};
use crate::markup::Plain;
use std::alloc::{AllocError, Global};
use std::fmt;

/// A word for a shell, in single quotes; a single quote in it is written outside of them.
#[derive(Clone, Copy)]
struct ShellWord<'a> {
    text: &'a str,
}

impl fmt::Display for ShellWord<'_> {
    fn fmt<W: fmt::Write>(&self, f: &mut fmt::Formatter<W>) -> fmt::Result {
        f.write_str("'")?;
        for c in self.text.chars() {
            if c == '\'' {
                f.write_str("'\\''")?;
            } else {
                write!(f, "{c}")?;
            }
        }
        f.write_str("'")
    }
}

/// The option that names a file.
fn option_of(role: Role) -> &'static str {
    match role {
        Role::Policy => " --policy ",
        Role::Users => " --creds ",
        Role::Certificate => " --cert ",
        Role::Capture => " ",
    }
}

/// Whether `find` reads the file.
fn is_read_by_find(row: &FileRow<'_>) -> bool {
    row.role != Role::Certificate
}

/// The arguments of a command, except the certificate.
fn words_of(alloc: Global, files: &[FileRow<'_>]) -> Result<String, AllocError> {
    let mut words = String::new(alloc);
    for row in files {
        if is_read_by_find(row) {
            let option = option_of(row.role);
            let name = ShellWord { text: row.name };
            words.push_str(format!(in alloc; "{option}{name}")?.as_str())?;
        }
    }
    Ok(words)
}

/// The name of the certificate: that of a file, or the output of `find`.
fn certificate_of<'f>(files: &[FileRow<'f>]) -> Option<&'f str> {
    for row in files {
        if row.role == Role::Certificate {
            return Some(row.name);
        }
    }
    None
}

/// The section about how to repeat the verdict.
pub fn commands(alloc: Global, facts: &Facts<'_>) -> Result<String, AllocError> {
    let words = words_of(alloc, facts.files)?;
    let found = certificate_of(facts.files);
    let certificate = ShellWord {
        text: found.unwrap_or("certificate"),
    };
    let mut text = String::new(alloc);
    if found.is_none() {
        text.push_str(format!(in alloc; "turnaudit find{words} > {certificate}\n")?.as_str())?;
    }
    text.push_str(format!(in alloc;
        "turnaudit check --cert {certificate}{words}\nturnaudit audit{words}\n"
    )?.as_str())?;
    let told = Plain {
        text: text.as_str(),
    };
    format!(in alloc; "<pre>{told}</pre>\n")
}
