//! Notes about a configuration, in addition to its policy, for people.

use crate::conf::Conf;
use crate::rows::Row;
use crate::setting::Setting;
use audit_text::number;
use std::alloc::{AllocError, Global};
use std::fmt::Write;

/// The lifetime of a permission by RFC 8656, in seconds.
const PERMISSION: u64 = 300;

/// The lifetime of a channel binding by RFC 8656, in seconds.
const CHANNEL: u64 = 600;

/// A line for each setting that turnaudit doesn't judge, or will report.
pub fn notes_of(alloc: Global, rows: &[Row<'_>], conf: &Conf) -> Result<String, AllocError> {
    let mut notes = String::new(alloc);
    for row in rows {
        if let Some(setting) = Setting::of(row.name) {
            note_row(&mut notes, row, setting)?;
        }
    }
    if !conf.no_tcp {
        notes.push_str(
            "turnprep: note: without no-tcp clients may come by TCP: turnprep cut excludes what is relayed for them\n",
        )?;
    }
    if !conf.no_tls {
        notes.push_str(
            "turnprep: note: without no-tls clients may come by TLS: turnprep cut excludes what is relayed for them\n",
        )?;
    }
    Ok(notes)
}

/// Adds the note about one line.
fn note_row(notes: &mut String, row: &Row<'_>, setting: Setting) -> Result<(), AllocError> {
    let line = row.line;
    let name = setting.name();
    match setting {
        Setting::ListeningIp | Setting::RelayIp if row.value.contains(&b':') => {
            write!(
                notes,
                "turnprep: note: line {line} {name}: IPv6 is passed over\n"
            )
        }
        Setting::AuxServer if row.value.first() == Some(&b'[') => {
            write!(
                notes,
                "turnprep: note: line {line} {name}: IPv6 is passed over\n"
            )
        }
        Setting::PermissionLifetime if number(row.value, PERMISSION).is_err() => write!(
            notes,
            "turnprep: note: line {line} {name}: RFC 8656 has {PERMISSION}, so that R7 will be reported\n"
        ),
        Setting::ChannelLifetime if number(row.value, CHANNEL).is_err() => write!(
            notes,
            "turnprep: note: line {line} {name}: RFC 8656 has {CHANNEL}, so that R9 will be reported\n"
        ),
        Setting::Mobility if row.is_on() => write!(
            notes,
            "turnprep: note: line {line} {name}: clients that move (MOBILITY-TICKET) are not judged\n"
        ),
        Setting::AlternateServer if row.is_on() => write!(
            notes,
            "turnprep: note: line {line} {name}: answers of 300 are judged as errors without a condition\n"
        ),
        _ => Ok(()),
    }
}
