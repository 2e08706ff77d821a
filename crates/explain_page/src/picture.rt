//! A picture of a client's leases over time, and of its datagrams.

use crate::axis::axis;
use crate::markup::Plain;
use std::alloc::{AllocError, Global};

/// The left end of the times, after the names; their width; the margin after them; and the height
/// of a row, in the picture's units.
pub(crate) const LEFT: u64 = 260;

pub(crate) const WIDTH: u64 = 700;

const RIGHT: u64 = 40;

const ROW: u64 = 20;

/// Whether a lease was ended by a request or not.
#[derive(Clone, Copy, Debug, PartialEq, Eq)]
pub enum BarKind {
    /// It ends by its time-to-expiry.
    Lasting,
    /// It was deleted, or replaced by another.
    Ended,
}

/// A lease. Moments are nanoseconds since 1970.
#[derive(Clone, Copy)]
pub struct Bar<'p> {
    /// Its name, which is plain.
    pub name: &'p str,
    pub kind: BarKind,
    pub from: u64,
    pub until: u64,
    /// With the policy's grace.
    pub last: u64,
}

/// A datagram of the client.
#[derive(Clone, Copy)]
pub struct Mark {
    /// Nanoseconds since 1970.
    pub moment: u64,
    /// Whether it violates the rule.
    pub is_breach: bool,
}

/// The drawing between two moments.
#[derive(Clone, Copy)]
pub struct Picture<'p> {
    /// The moment from which the times of the axis count: the first frame of all captures.
    /// Nanoseconds since 1970.
    pub origin: u64,
    /// Nanoseconds since 1970.
    pub first: u64,
    pub last: u64,
    pub bars: &'p [Bar<'p>],
    pub marks: &'p [Mark],
}

/// The legend below the picture.
const LEGEND: &str =
    "<p class=\"legend\"><svg viewBox=\"0 0 24 12\" class=\"key\"><rect x=\"0\" y=\"0\" width=\"24\" height=\"12\" fill=\"#607d8b\"/></svg> lasts; <svg viewBox=\"0 0 24 12\" class=\"key\"><rect x=\"0\" y=\"0\" width=\"24\" height=\"12\" fill=\"#cfd8dc\"/></svg> expired, in the grace; <svg viewBox=\"0 0 24 12\" class=\"key\"><rect x=\"0\" y=\"0\" width=\"24\" height=\"12\" fill=\"#eceff1\" stroke=\"#607d8b\" stroke-width=\"2\" stroke-dasharray=\"4 3\"/></svg> ended by a request (deleted or replaced); <svg viewBox=\"0 0 24 12\" class=\"key\"><rect x=\"11\" y=\"0\" width=\"1\" height=\"12\" fill=\"#111\"/></svg> a datagram of the client; <svg viewBox=\"0 0 24 12\" class=\"key\"><rect x=\"11\" y=\"0\" width=\"2\" height=\"12\" fill=\"#c62828\"/></svg> the datagram that breaks the rule. Times count from the first frame of all captures.</p>\n";

impl Picture<'_> {
    /// The horizontal position of a moment.
    pub(crate) fn place(&self, moment: u64) -> u64 {
        let length = self.last.saturating_sub(self.first).max(1);
        let way = moment.clamp(self.first, self.first.max(self.last)) - self.first;
        // In steps of a millionth of the length, so that no product overflows.
        let step = (length / 1_000_000).max(1);
        LEFT + (way / step).saturating_mul(WIDTH) / (length / step).max(1)
    }

    /// The row of a lease.
    fn bar(&self, alloc: Global, bar: &Bar<'_>, top: u64) -> Result<String, AllocError> {
        let name = Plain { text: bar.name };
        let from = self.place(bar.from);
        let lasts = self.place(bar.until).saturating_sub(from).max(1);
        let with_grace = self.place(bar.last).saturating_sub(from).max(1);
        let base = top.saturating_add(14);
        let look = match bar.kind {
            BarKind::Lasting => "fill=\"#607d8b\"",
            BarKind::Ended => "fill=\"#eceff1\" stroke=\"#607d8b\" stroke-dasharray=\"4 3\"",
        };
        format!(in alloc;
            "<text x=\"0\" y=\"{base}\">{name}</text>\n<rect x=\"{from}\" y=\"{top}\" width=\"{with_grace}\" height=\"16\" fill=\"#cfd8dc\"/>\n<rect x=\"{from}\" y=\"{top}\" width=\"{lasts}\" height=\"16\" {look}/>\n"
        )
    }

    /// A datagram.
    fn mark(&self, alloc: Global, mark: &Mark, top: u64) -> Result<String, AllocError> {
        let at = self.place(mark.moment);
        if mark.is_breach {
            let height = top.saturating_add(12);
            return format!(in alloc;
                "<rect x=\"{at}\" y=\"0\" width=\"2\" height=\"{height}\" fill=\"#c62828\"/>\n"
            );
        }
        format!(in alloc;
            "<rect x=\"{at}\" y=\"{top}\" width=\"1\" height=\"12\" fill=\"#111\"/>\n"
        )
    }

    /// The rows of the leases and the marks below them, and their height.
    fn rows(&self, alloc: Global) -> Result<(String, u64), AllocError> {
        let mut rows = String::new(alloc);
        let mut top = 4u64;
        for bar in self.bars {
            rows.push_str(self.bar(alloc, bar, top)?.as_str())?;
            top = top.saturating_add(ROW);
        }
        for mark in self.marks {
            rows.push_str(self.mark(alloc, mark, top)?.as_str())?;
        }
        Ok((rows, top))
    }

    /// The picture as SVG, and its legend.
    pub fn drawn(&self, alloc: Global) -> Result<String, AllocError> {
        let (rows, top) = self.rows(alloc)?;
        let base = top.saturating_add(12);
        let axis = axis(alloc, self, top.saturating_add(16))?;
        let height = top.saturating_add(44);
        let width = LEFT + WIDTH + RIGHT;
        format!(in alloc;
            "<svg viewBox=\"0 0 {width} {height}\" font-size=\"13\" font-family=\"sans-serif\" role=\"img\" aria-label=\"What the client had over time\">\n{rows}<text x=\"0\" y=\"{base}\">its datagrams</text>\n{axis}</svg>\n{LEGEND}"
        )
    }
}
