//! The comment at the end of a capture that was cut.

ghost use Rattle.std.specs.Prelude.{◌≡◌, IfOk, string_bytes};
ghost use Rattle.prep_program.specs.CutComment.{comment_text, comment_of_cut};

use prep_comment::comment_section;
use prep_cut::Totals;
use std::alloc::{AllocError, Global};

/// The text, with the digest in hexadecimal digits.
fn text_of_cut(alloc: Global, totals: &Totals, digest: &str) -> Result<String, AllocError>
    ensures { IfOk result (λ text. string_bytes text ≡ comment_text totals.now digest.now) }
{
    let kept = totals.written;
    let excluded = totals.left;
    format!(in alloc;
        "turnprep cut: kept {kept} packets and excluded {excluded}, which the list set-aside has; SHA-256 of the original: {digest}"
    )
}

/// The section at the end of a capture that was cut: how many packets were kept and excluded, and
/// the SHA-256 of the original capture.
pub fn section_of_cut(
    alloc: Global,
    totals: &Totals,
    digest: &[u8; 32],
) -> Result<Vec<u8>, AllocError>
    ensures { IfOk result (λ section. section.items ≡ comment_of_cut totals.now digest.now) }
{
    let digest = hex::encode(alloc, digest)?;
    let text = text_of_cut(alloc, totals, digest.as_str())?;
    comment_section(alloc, text.as_str())
}
