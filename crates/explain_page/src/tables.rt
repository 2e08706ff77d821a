//! The page's tables.

use crate::facts::{CaptureRow, ClientRow, CommentRow, Facts, FileRow, Role, UserRow};
use crate::markup::Plain;
use explain_text::Utc;
use std::alloc::{AllocError, Global};

/// The row of a file.
fn file_row(alloc: Global, row: &FileRow<'_>) -> Result<String, AllocError> {
    let role = row.role.text();
    let name = Plain { text: row.name };
    match row.digests {
        Some(digests) => {
            let size = digests.size;
            format!(in alloc;
                "<tr><td>{role}</td><td>{name}</td><td class=\"number\">{size}</td><td><code>{digests}</code></td></tr>\n"
            )
        }
        None => {
            let reason = if row.role == Role::Users {
                "not filed: a digest lets its reader try passwords"
            } else {
                "not read to its end"
            };
            format!(in alloc;
                "<tr><td>{role}</td><td>{name}</td><td colspan=\"2\">{reason}</td></tr>\n"
            )
        }
    }
}

/// The files that were read.
pub fn files(alloc: Global, facts: &Facts<'_>) -> Result<String, AllocError> {
    let mut text = String::from_str(
        alloc,
        "<table>\n<tr><th>what</th><th>name</th><th>bytes</th><th>SHA-256</th></tr>\n",
    )?;
    for row in facts.files {
        text.push_str(file_row(alloc, row)?.as_str())?;
    }
    text.push_str("</table>\n")?;
    Ok(text)
}

/// A moment, as a date and in nanoseconds since 1970.
fn moment(alloc: Global, moment: Option<u64>) -> Result<String, AllocError> {
    match moment {
        Some(moment) => {
            let utc = Utc { moment };
            format!(in alloc;
                "<span class=\"number\">{utc}</span> <span class=\"number\">({moment})</span>"
            )
        }
        None => String::from_str(alloc, "none"),
    }
}

/// The cell about the statistics blocks of a capture.
fn statistics(alloc: Global, count: u64) -> Result<String, AllocError> {
    if count == 0 {
        return String::from_str(alloc, "none were written");
    }
    format!(in alloc; "{count}, no drops")
}

/// The row of the capture with this number.
fn capture_row(alloc: Global, number: usize, row: &CaptureRow) -> Result<String, AllocError> {
    let interfaces = row.interfaces;
    let packets = row.packets;
    let first = moment(alloc, row.first)?;
    let last = moment(alloc, row.last)?;
    let statistics = statistics(alloc, row.statistics)?;
    format!(in alloc;
        "<tr><td>{number}</td><td>{interfaces}</td><td>{packets}</td><td>{first}</td><td>{last}</td><td>{statistics}</td></tr>\n"
    )
}

/// The table of the captures.
pub fn captures(alloc: Global, facts: &Facts<'_>) -> Result<String, AllocError> {
    let mut text = String::from_str(
        alloc,
        "<table>\n<tr><th>capture</th><th>interfaces</th><th>packets</th><th>first</th><th>last</th><th>statistics</th></tr>\n",
    )?;
    for (number, row) in facts.captures.iter().enumerate() {
        text.push_str(capture_row(alloc, number, row)?.as_str())?;
    }
    text.push_str("</table>\n")?;
    Ok(text)
}

/// The comment of a capture.
fn comment_row(alloc: Global, row: &CommentRow<'_>) -> Result<String, AllocError> {
    let capture = row.capture;
    let comment = Plain { text: row.text };
    format!(in alloc; "<p>The comment of capture {capture}: {comment}</p>\n")
}

/// The comments of the captures.
pub fn comments(alloc: Global, facts: &Facts<'_>) -> Result<String, AllocError> {
    let mut text = String::new(alloc);
    for row in facts.comments {
        text.push_str(comment_row(alloc, row)?.as_str())?;
    }
    Ok(text)
}

/// The row of a user.
fn user_row(alloc: Global, row: &UserRow<'_>) -> Result<String, AllocError> {
    let name = Plain { text: row.name };
    let realm = Plain { text: row.realm };
    format!(in alloc; "<tr><td>{name}</td><td>{realm}</td></tr>\n")
}

/// The users, without their passwords.
pub fn users(alloc: Global, facts: &Facts<'_>) -> Result<String, AllocError> {
    if facts.users.is_empty() {
        return String::from_str(alloc, "<p>There are none.</p>\n");
    }
    let mut text = String::from_str(alloc, "<table>\n<tr><th>user</th><th>realm</th></tr>\n")?;
    for row in facts.users {
        text.push_str(user_row(alloc, row)?.as_str())?;
    }
    text.push_str("</table>\n")?;
    Ok(text)
}

/// The line of a client.
fn client_line(alloc: Global, row: &ClientRow<'_>) -> Result<String, AllocError> {
    let line = Plain { text: row.line };
    if row.is_broken {
        return format!(in alloc; "<span class=\"broken\">{line}</span>");
    }
    format!(in alloc; "{line}")
}

/// The clients, only the first ones if there are many, and the sums of all.
pub fn clients(alloc: Global, facts: &Facts<'_>) -> Result<String, AllocError> {
    let mut text = String::from_str(alloc, "<pre>")?;
    for row in facts.clients {
        text.push_str(client_line(alloc, row)?.as_str())?;
    }
    let left = (facts.all_clients as usize).saturating_sub(facts.clients.len());
    if left > 0 {
        text.push_str(format!(in alloc; ".. and {left} more\n")?.as_str())?;
    }
    let sums = Plain { text: facts.sums };
    text.push_str(format!(in alloc; "{sums}</pre>\n")?.as_str())?;
    Ok(text)
}
