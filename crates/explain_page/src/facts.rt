//! The contents of the page.

use crate::hashed::Digests;
use crate::picture::Picture;

/// The kind of a file.
#[derive(Clone, Copy, Debug, PartialEq, Eq)]
pub enum Role {
    Policy,
    Users,
    Certificate,
    Capture,
}

impl Role {
    /// The name of the kind.
    pub fn text(self) -> &'static str {
        match self {
            Role::Policy => "policy",
            Role::Users => "users",
            Role::Certificate => "certificate",
            Role::Capture => "capture",
        }
    }
}

/// A file that was read. Its name is plain: no control characters.
#[derive(Clone, Copy)]
pub struct FileRow<'f> {
    pub role: Role,
    pub name: &'f str,
    /// Of the bytes that were judged. `None` for users: a digest would help to guess passwords.
    pub digests: Option<Digests>,
}

/// The comment of a capture's section header. The texts are plain.
#[derive(Clone, Copy)]
pub struct CommentRow<'f> {
    /// The number of the capture, from 0.
    pub capture: usize,
    pub text: &'f str,
}

/// The facts of a capture.
#[derive(Clone, Copy)]
pub struct CaptureRow {
    pub interfaces: u64,
    pub packets: u64,
    /// The least and the greatest stamp, in nanoseconds since 1970; `None` without a packet.
    pub first: Option<u64>,
    pub last: Option<u64>,
    /// The number of statistics blocks. None of them reports drops: such a capture is refused.
    pub statistics: u64,
}

/// A user, without the password. The names are plain.
#[derive(Clone, Copy)]
pub struct UserRow<'f> {
    pub name: &'f str,
    pub realm: &'f str,
}

/// A client at a listen address, as a line of `turnexplain lanes`.
#[derive(Clone, Copy)]
pub struct ClientRow<'f> {
    pub line: &'f str,
    pub is_broken: bool,
}

/// All contents of the page. Texts are plain: no control characters except line ends.
#[derive(Clone, Copy)]
pub struct Facts<'f> {
    /// The first words of `turnexplain verdict`.
    pub head: &'f str,
    pub is_conforming: bool,
    /// The whole output of `turnexplain verdict`.
    pub story: &'f str,
    pub files: &'f [FileRow<'f>],
    /// The facts of each capture, in order.
    pub captures: &'f [CaptureRow],
    /// The comments of captures that have one.
    pub comments: &'f [CommentRow<'f>],
    /// The list of packets that `turnprep cut` excluded, if it is on the page.
    pub excluded: Option<&'f str>,
    /// The policy's text.
    pub policy: &'f str,
    pub users: &'f [UserRow<'f>],
    /// The first clients, and the number of all clients.
    pub clients: &'f [ClientRow<'f>],
    pub all_clients: u32,
    /// The sums of `turnexplain lanes`.
    pub sums: &'f str,
    /// The release, with the tools of its proofs.
    pub release: &'f str,
    /// The digests of the running program; `None` if it can't be read.
    pub program: Option<Digests>,
    /// The SHA-256 of docs/headline.txt, in hexadecimal digits.
    pub headline: &'f str,
    pub picture: Option<Picture<'f>>,
}
