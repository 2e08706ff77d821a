//! The text on standard error if a run ends before its answer.

use crate::command_line::Inputs;
use crate::digesting::Digesting;
use crate::line_of_text::{LineOfText, line_of_text};
use crate::mistakes::{Kind, mistake};
use crate::run_error::RunError;
use crate::shape::Shape;
use crate::system::{Explaining, PageFile, Trouble};
use audit_files::{Place, Source, Stop};
use explain_text::{Quoted, refusal_reason};
use std::alloc::{AllocError, Global};

/// The files of a request.
#[derive(Clone, Copy)]
pub struct Named<'r, 'a> {
    pub inputs: &'r Inputs<'a>,
    /// The list of packets that `turnprep cut` excluded.
    pub excluded: Option<&'a str>,
}

/// A line of a file, and the file's expected kind.
#[derive(Clone, Copy)]
struct Spot<'a> {
    kind: Kind,
    name: &'a str,
    /// From 1; for a capture 1.
    line: u64,
}

/// The input at a place.
fn spot_of<'a>(inputs: &Inputs<'a>, place: &Place) -> Spot<'a> {
    match place {
        Place::Policy { line } => Spot {
            kind: Kind::Policy,
            name: inputs.policy,
            line: *line,
        },
        Place::Credentials { line } => Spot {
            kind: Kind::Users,
            name: inputs.credentials.unwrap_or("?"),
            line: *line,
        },
        Place::Certificate { line } => Spot {
            kind: Kind::Certificate,
            name: inputs.certificate.unwrap_or("?"),
            line: *line,
        },
        Place::Capture { file } => Spot {
            kind: Kind::Capture,
            name: inputs.captures.get(*file as usize).copied().unwrap_or("?"),
            line: 1,
        },
    }
}

/// The likely mistake in parentheses; nothing if none is known.
fn in_brackets(alloc: Global, kind: Kind, found: &LineOfText) -> Result<String, AllocError> {
    match mistake(kind, found) {
        Some(likely) => format!(in alloc; " ({likely})"),
        None => Ok(String::new(alloc)),
    }
}

/// The line of a refused text, as it is printed. Bytes of users that may be a password are hidden.
fn shown_line(alloc: Global, kind: Kind, found: &LineOfText) -> Result<String, AllocError> {
    if kind == Kind::Users {
        let shape = Shape {
            line: found.line.as_slice(),
        };
        return format!(in alloc; "{shape}");
    }
    let line = Quoted {
        bytes: found.line.as_slice(),
    };
    format!(in alloc; "{line}")
}

/// The line about a refused input that can't be read again.
fn refused_once(alloc: Global, code: &'static str, spot: Spot<'_>) -> Result<String, AllocError> {
    let name = Quoted {
        bytes: spot.name.as_bytes(),
    };
    let reason = refusal_reason(code);
    if spot.kind == Kind::Capture {
        return format!(in alloc; "{name}: {reason}, {code}");
    }
    let line = spot.line;
    format!(in alloc; "{name} line {line}: {reason}, {code}")
}

/// The lines about a refused text or capture, which is read again.
fn words_of_refused<S: Source>(
    alloc: Global,
    source: &mut S,
    code: &'static str,
    spot: Spot<'_>,
) -> Result<String, AllocError> {
    let found = &line_of_text(alloc, source, spot.name, spot.line)?;
    let name = Quoted {
        bytes: spot.name.as_bytes(),
    };
    let reason = refusal_reason(code);
    let likely = in_brackets(alloc, spot.kind, found)?;
    if spot.kind == Kind::Capture {
        return format!(in alloc; "{name}: {reason}, {code}{likely}");
    }
    let shown = shown_line(alloc, spot.kind, found)?;
    let line = spot.line;
    format!(in alloc; "{name} line {line}: {reason}, {code}: \"{shown}\"{likely}")
}

/// The lines about a file that can't be read.
fn words_of_trouble(alloc: Global, name: &str, trouble: Trouble) -> Result<String, AllocError> {
    let name = Quoted {
        bytes: name.as_bytes(),
    };
    let why = match trouble {
        Trouble::Missing => "no such file",
        Trouble::Denied => "permission denied",
        Trouble::Other => "it can't be read to its end",
    };
    format!(in alloc; "can't read {name}: {why}")
}

/// The first of the captures that can't be read.
fn troubled_capture<'a, S: Explaining>(
    source: &mut S,
    inputs: &Inputs<'a>,
) -> Option<(&'a str, Trouble)> {
    for name in &inputs.captures {
        if let Some(trouble) = source.trouble(name) {
            return Some((*name, trouble));
        }
    }
    None
}

/// The first of the inputs that can't be read.
fn troubled<'a, S: Explaining>(
    source: &mut S,
    named: &Named<'_, 'a>,
) -> Option<(&'a str, Trouble)> {
    let inputs = named.inputs;
    if let Some(trouble) = source.trouble(inputs.policy) {
        return Some((inputs.policy, trouble));
    }
    if let Some(name) = inputs.credentials {
        if let Some(trouble) = source.trouble(name) {
            return Some((name, trouble));
        }
    }
    if let Some(name) = inputs.certificate {
        if let Some(trouble) = source.trouble(name) {
            return Some((name, trouble));
        }
    }
    if let Some((name, trouble)) = troubled_capture(source, inputs) {
        return Some((name, trouble));
    }
    let name = named.excluded?;
    match source.trouble(name) {
        Some(trouble) => Some((name, trouble)),
        None => None,
    }
}

/// The line about a failed read.
fn read_failure<S: Explaining>(
    alloc: Global,
    source: &mut Digesting<S>,
    named: &Named<'_, '_>,
) -> Result<String, AllocError> {
    if let Some(name) = source.changed() {
        let name = Quoted {
            bytes: name.as_bytes(),
        };
        return format!(in alloc; "{name} changed while it was read");
    }
    match troubled(source, named) {
        Some((name, trouble)) => words_of_trouble(alloc, name, trouble),
        None => String::from_str(alloc, "a file can't be read"),
    }
}

/// The line about a failed write.
fn write_failure<P: PageFile>(alloc: Global, pages: &P) -> Result<String, AllocError> {
    let Some(failure) = pages.failure() else {
        return String::from_str(alloc, "the answer can't be written");
    };
    let name = Quoted {
        bytes: failure.name.as_bytes(),
    };
    format!(in alloc; "can't write {name}: {failure}")
}

/// The line about the failure of a run. A refused input is read again, if it can be.
fn stopped<S: Explaining, P: PageFile>(
    alloc: Global,
    source: &mut Digesting<S>,
    pages: &P,
    named: &Named<'_, '_>,
    stop: &Stop,
) -> Result<String, AllocError> {
    match stop {
        Stop::Refused { code, place } => {
            let spot = spot_of(named.inputs, place);
            if source.is_repeatable(spot.name) {
                return words_of_refused(alloc, source, code, spot);
            }
            refused_once(alloc, code, spot)
        }
        Stop::Read => read_failure(alloc, source, named),
        Stop::Memory => String::from_str(alloc, "out of memory"),
        Stop::Write => write_failure(alloc, pages),
    }
}

/// The line about why a run ended before its answer.
pub fn refusal<S: Explaining, P: PageFile>(
    alloc: Global,
    source: &mut Digesting<S>,
    pages: &P,
    named: &Named<'_, '_>,
    error: &RunError,
) -> Result<String, AllocError> {
    match error {
        RunError::Stopped(stop) => stopped(alloc, source, pages, named, stop),
        RunError::NoLane { lane, lanes } => format!(in alloc;
            "there is no lane {lane}: there are {lanes}, from 0 (turnexplain lanes)"
        ),
        RunError::ReadOnce(name) => {
            let name = Quoted {
                bytes: name.as_bytes(),
            };
            format!(in alloc; "{name}: it has to be a file that can be read twice")
        }
    }
}
