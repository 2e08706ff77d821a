//! The axis of a picture, with times.

use crate::picture::{LEFT, Picture, WIDTH};
use explain_text::SinceShort;
use std::alloc::{AllocError, Global};

/// The number of parts of the axis.
const PARTS: u64 = 4;

/// The axis below a picture, at this height: a line, and a time at each end and between.
pub(crate) fn axis(alloc: Global, picture: &Picture<'_>, top: u64) -> Result<String, AllocError> {
    let mut text = format!(in alloc;
        "<rect x=\"{LEFT}\" y=\"{top}\" width=\"{WIDTH}\" height=\"1\" fill=\"#111\"/>\n"
    )?;
    for part in 0..PARTS + 1 {
        text.push_str(tick(alloc, picture, top, part)?.as_str())?;
    }
    Ok(text)
}

/// The tick before a part.
fn tick(alloc: Global, picture: &Picture<'_>, top: u64, part: u64) -> Result<String, AllocError> {
    let at = (WIDTH / PARTS).saturating_mul(part).saturating_add(LEFT);
    let base = top.saturating_add(20);
    let length = picture.last.saturating_sub(picture.first);
    let time = SinceShort {
        first: picture.origin,
        moment: picture
            .first
            .saturating_add((length / PARTS).saturating_mul(part)),
    };
    format!(in alloc;
        "<rect x=\"{at}\" y=\"{top}\" width=\"1\" height=\"6\" fill=\"#111\"/>\n<text x=\"{at}\" y=\"{base}\" text-anchor=\"middle\" font-size=\"11\">{time} s</text>\n"
    )
}
