//! The origin of data that the server sends.

/// Whether the captures show an arrival that explains a departure.
#[derive(Clone, Copy, Debug, PartialEq, Eq)]
pub(crate) enum Origin {
    /// They show one, which explains no other departure.
    Shown,
    /// They show none, but begin so shortly before the departure that the arrival may be earlier.
    Early,
    /// They would show one, and don't.
    Missing,
}
