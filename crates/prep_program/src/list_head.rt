//! The head of the list of what is excluded.

ghost use Rattle.std.specs.Prelude.{◌≡◌, IfOk, string_bytes};
ghost use Rattle.prep_program.specs.ListText.{moment_line, number_line, printed_line, moments_text, head_text};

use prep_cut::Stated;
use std::alloc::{AllocError, Global};

/// The default lifetime of an allocation from before, in seconds: coturn's greatest.
pub const USUAL_LIFETIME: u64 = 3_600;

/// The line of an optional moment.
fn line_of_moment(alloc: Global, word: &str, moment: Option<u64>) -> Result<String, AllocError>
    ensures { IfOk result (λ line. string_bytes line ≡ moment_line word.now moment) }
{
    match moment {
        None => Ok(String::new(alloc)),
        Some(moment) => format!(in alloc; "{word} {moment}\n"),
    }
}

/// The line of a number, if it is printed.
fn line_of_number(
    alloc: Global,
    word: &str,
    is_printed: bool,
    number: u64,
) -> Result<String, AllocError>
    ensures { IfOk result (λ line. string_bytes line ≡ number_line word.now is_printed number) }
{
    if is_printed {
        format!(in alloc; "{word} {number}\n")
    } else {
        Ok(String::new(alloc))
    }
}

/// The line, if it is printed.
fn line_if(is_printed: bool, line: &str) -> &str
    ensures { result.now ≡ printed_line is_printed line.now }
{
    if is_printed { line } else { "" }
}

/// The first lines, with the stated moments.
fn moments_of(alloc: Global, stated: &Stated, begin: u64) -> Result<String, AllocError>
    ensures { IfOk result (λ text. string_bytes text ≡ moments_text stated.now begin) }
{
    let mut text = format!(in alloc; "turnprep-set-aside 1\nbegin {begin}\n")?;
    text.push_str(line_of_moment(alloc, "since", stated.since)?.as_str())?;
    text.push_str(line_of_moment(alloc, "until", stated.until)?.as_str())?;
    Ok(text)
}

/// The list's head: all options that the operator states; a lifetime only if it isn't the default.
pub fn head_of(alloc: Global, stated: &Stated, begin: u64) -> Result<String, AllocError>
    ensures { IfOk result (λ text. string_bytes text ≡ head_text stated.now begin) }
{
    let mut text = moments_of(alloc, stated, begin)?;
    let lifetime = stated.lifetime;
    let released = stated.released_ms;
    text.push_str(line_if(stated.is_from_start, "from-start\n"))?;
    text.push_str(line_if(stated.has_no_tcp, "no-tcp\n"))?;
    text.push_str(line_of_number(
        alloc,
        "lifetime",
        lifetime != USUAL_LIFETIME,
        lifetime,
    )?.as_str())?;
    text.push_str(line_of_number(alloc, "released-ms", released > 0, released)?.as_str())?;
    text.push_str(line_if(stated.keeps_inner, "keep-inner\n"))?;
    Ok(text)
}
