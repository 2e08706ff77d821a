//! The collected contents of a page, as its rows.

use crate::named::{NamedFile, NamedUser};
use crate::picture::{Drawing, DrawnLease};
use crate::reading::CaptureFacts;
use explain_page::{Bar, BarKind, CaptureRow, ClientRow, CommentRow, FileRow, Picture, UserRow};
use std::alloc::{AllocError, Global};

/// The clients' lines, and the notes about all.
#[derive(Drop)]
pub struct Clients {
    pub lines: Vec<String>,
    /// Whether each of these violates a rule.
    pub broken: Vec<bool>,
    /// The number of clients.
    pub all: u32,
    pub sums: String,
}

/// The rows of the clients.
pub fn client_rows<'g>(
    alloc: Global,
    clients: &'g Clients,
) -> Result<Vec<ClientRow<'g>>, AllocError> {
    let mut rows = Vec::new(alloc);
    for (line, is_broken) in clients.lines.iter().zip(clients.broken.iter()) {
        rows.push(ClientRow {
            line: line.as_str(),
            is_broken: *is_broken,
        })?;
    }
    Ok(rows)
}

/// The rows of the files.
pub fn file_rows<'g>(
    alloc: Global,
    files: &'g [NamedFile],
) -> Result<Vec<FileRow<'g>>, AllocError> {
    let mut rows = Vec::new(alloc);
    for file in files {
        rows.push(FileRow {
            role: file.role,
            name: file.name.as_str(),
            digests: file.digests,
        })?;
    }
    Ok(rows)
}

/// The rows of the captures.
pub fn capture_rows(
    alloc: Global,
    captures: &[CaptureFacts],
) -> Result<Vec<CaptureRow>, AllocError> {
    let mut rows = Vec::new(alloc);
    for facts in captures {
        rows.push(facts.row)?;
    }
    Ok(rows)
}

/// The comments of captures that have one.
pub fn comment_rows<'g>(
    alloc: Global,
    captures: &'g [CaptureFacts],
) -> Result<Vec<CommentRow<'g>>, AllocError> {
    let mut rows = Vec::new(alloc);
    for (capture, facts) in captures.iter().enumerate() {
        if let Some(text) = &facts.comment {
            rows.push(CommentRow {
                capture,
                text: text.as_str(),
            })?;
        }
    }
    Ok(rows)
}

/// The rows of the users.
pub fn user_rows<'g>(
    alloc: Global,
    users: &'g [NamedUser],
) -> Result<Vec<UserRow<'g>>, AllocError> {
    let mut rows = Vec::new(alloc);
    for user in users {
        rows.push(UserRow {
            name: user.name.as_str(),
            realm: user.realm.as_str(),
        })?;
    }
    Ok(rows)
}

/// The bars of the leases, with the policy's grace.
fn bars<'g>(
    alloc: Global,
    leases: &'g [DrawnLease],
    grace: u64,
) -> Result<Vec<Bar<'g>>, AllocError> {
    let mut rows = Vec::new(alloc);
    for lease in leases {
        rows.push(Bar {
            name: lease.name.as_str(),
            kind: lease.kind,
            from: lease.from,
            until: lease.until,
            last: match lease.kind {
                BarKind::Lasting => lease.until.saturating_add(grace),
                BarKind::Ended => lease.until,
            },
        })?;
    }
    Ok(rows)
}

/// The bars of a drawing; none if nothing is drawn.
pub fn bars_of<'g>(
    alloc: Global,
    drawing: &'g Option<Drawing>,
    grace: u64,
) -> Result<Vec<Bar<'g>>, AllocError> {
    match drawing {
        Some(drawing) => bars(alloc, drawing.leases.as_slice(), grace),
        None => Ok(Vec::new(alloc)),
    }
}

/// The drawing, with its bars. Its times count from a moment.
pub fn picture_of<'g>(
    drawing: &'g Option<Drawing>,
    rows: &'g [Bar<'g>],
    origin: u64,
) -> Option<Picture<'g>> {
    match drawing {
        Some(drawing) => {
            let picture = Picture {
                origin,
                first: drawing.first,
                last: drawing.last,
                bars: rows,
                marks: drawing.marks.as_slice(),
            };
            Some(picture)
        }
        None => None,
    }
}
