//! Likely mistakes that cause a refusal, by the content of the file.

use crate::line_of_text::LineOfText;

/// The kind of an input.
#[derive(Clone, Copy, PartialEq, Eq)]
pub enum Kind {
    Policy,
    Users,
    Certificate,
    Capture,
}

/// The kind of a file by its first bytes; `None` if it isn't known.
fn is_known_as(front: &[u8]) -> Option<&'static str> {
    match front {
        [0x0A, 0x0D, 0x0D, 0x0A, ..] => Some("it is a pcapng capture"),
        [0xD4, 0xC3, 0xB2, 0xA1, ..]
        | [0xA1, 0xB2, 0xC3, 0xD4, ..]
        | [0x4D, 0x3C, 0xB2, 0xA1, ..]
        | [0xA1, 0xB2, 0x3C, 0x4D, ..] => {
            Some(
                "it is a classic pcap, as tcpdump writes: capture with dumpcap, or editcap -F pcapng",
            )
        }
        [0x1F, 0x8B, ..] => Some("it begins like gzip: try zcat FILE > FILE.pcapng"),
        [0x28, 0xB5, 0x2F, 0xFD, ..] => Some("it begins like zstd: try zstd -d FILE"),
        [0xEF, 0xBB, 0xBF, ..] => Some(
            "a byte-order mark stands before the first line: save without one",
        ),
        [0xFF, 0xFE, ..] | [0xFE, 0xFF, ..] => Some(
            "it is UTF-16: save as UTF-8 without a byte-order mark",
        ),
        _ => None,
    }
}

/// Whether a text begins with a word.
fn begins(front: &[u8], word: &[u8]) -> bool {
    match front.get(..word.len()) {
        Some(start) => start == word,
        None => false,
    }
}

/// The kind of one of the project's texts, by its heading.
fn is_text_of(front: &[u8]) -> Option<Kind> {
    if begins(front, b"turnaudit-policy") {
        return Some(Kind::Policy);
    }
    if begins(front, b"turnaudit-certificate") {
        return Some(Kind::Certificate);
    }
    None
}

/// The mistake, if a file of another kind was expected.
fn exchanged(kind: Kind, found: &LineOfText) -> Option<&'static str> {
    let front = found.front.as_slice();
    if begins(front, b"turnaudit-report") {
        return Some("it is a report: turnaudit find writes a certificate");
    }
    match is_text_of(front) {
        Some(Kind::Policy) if kind != Kind::Policy => {
            Some("it is a policy: the files may be exchanged")
        }
        Some(Kind::Certificate) if kind != Kind::Certificate => {
            Some("it is a certificate: the files may be exchanged")
        }
        _ => None,
    }
}

/// How many of the bytes equal this one.
pub fn count(bytes: &[u8], wanted: u8) -> usize {
    bytes.iter().filter(|byte| **byte == wanted).count()
}

/// The mistake by a line of a text.
fn of_line(kind: Kind, found: &LineOfText) -> Option<&'static str> {
    let line = found.line.as_slice();
    if let Some(last) = line.last() {
        if *last == b'\r' {
            return Some("the line ends with CR and LF: sed -i 's/\\r$//' FILE");
        }
    }
    if line.is_empty() && found.is_ended {
        return Some("the line is blank: take it out");
    }
    if begins(line, b"#") {
        return Some("there are no comments: take it out");
    }
    if kind == Kind::Users && count(line, b'\t') < 2 && count(line, b' ') >= 1 {
        return Some("spaces stand in place of TABs: printf 'user\\trealm\\tpass\\n'");
    }
    if kind == Kind::Policy && count(line, b'\t') >= 1 {
        return Some("a TAB stands in place of a space, or the file is that of the users");
    }
    if found.is_too_long() {
        return Some("the line is longer than 65,536 bytes: this may be another file");
    }
    if !found.is_ended {
        return Some("no LF ends the last line: echo >> FILE");
    }
    None
}

/// The likely mistake that causes a refusal; `None` if none is known.
pub fn mistake(kind: Kind, found: &LineOfText) -> Option<&'static str> {
    let known = is_known_as(found.front.as_slice());
    if known.is_some() {
        // A damaged capture is still a capture.
        let is_capture = begins(found.front.as_slice(), &[0x0A, 0x0D, 0x0D, 0x0A]);
        if kind == Kind::Capture && is_capture {
            return None;
        }
        return known;
    }
    let other = exchanged(kind, found);
    if other.is_some() || kind == Kind::Capture {
        return other;
    }
    of_line(kind, found)
}
