//! The values of a command's options.

ghost use Rattle.std.specs.Prelude.{◌≡◌, IfNone, IfOk, IfSome, List, length, map, option_map};
ghost use Rattle.clap.specs.Words.{Text, all_of, first_of, found_of, rows_of};
ghost use Rattle.prep_program.specs.Requests.{HasCaptures, HasFlag, moment_named, number_named, values_of};

use audit_text::number;
use clap::ArgMatches;
use prep_moment::moment_of;
use std::alloc::{AllocError, Global};

/// The most captures of one audit.
const MAX_CAPTURES: usize = 16;

/// The value of an option.
pub fn value_of<'a>(matches: &ArgMatches<'a>, name: &str) -> Option<&'a str>
    ensures { option_map (λ value. value.now) result ≡ first_of name.now (rows_of (found_of matches.now)) }
{
    matches.get_str(name)
}

/// The values of an option that may occur several times, or of the captures.
pub fn all_values<'m, 'a>(matches: &'m ArgMatches<'a>, name: &str) -> Option<&'m [&'a str]>
    ensures { option_map (λ values. map (λ value. value.now) values.now) result ≡ all_of name.now (rows_of (found_of matches.now)) }
{
    matches.get_strs(name)
}

/// The values of an option; none if it is absent.
pub fn values<'a>(
    alloc: Global,
    matches: &ArgMatches<'a>,
    name: &str,
) -> Result<Vec<&'a str>, AllocError>
    ensures same { IfOk result (λ values. map (λ value. value.now) values.items ≡ values_of name.now (rows_of (found_of matches.now))) }
    ensures count { IfOk result (λ values. length values.items ≡ length (values_of name.now (rows_of (found_of matches.now)))) }
{
    match all_values(matches, name) {
        Some(values) => Vec::from_slice(alloc, values),
        None => Ok(Vec::new(alloc)),
    }
}

/// Whether an option without a value is present.
pub fn flag_of(matches: &ArgMatches<'_>, name: &str) -> bool
    ensures { HasFlag name.now (rows_of (found_of matches.now)) result }
{
    matches.get_flag(name)
}

/// The number of an option, if it is present; `None` if its value isn't a decimal number up to
/// `most`.
pub fn number_of(matches: &ArgMatches<'_>, name: &str, most: u64) -> Option<Option<u64>>
    ensures { result ≡ number_named most name.now (rows_of (found_of matches.now)) }
{
    let Some(word) = value_of(matches, name) else {
        return Some(None);
    };
    match number(word.as_bytes(), most) {
        Ok(number) => Some(Some(number)),
        Err(_) => None,
    }
}

/// The moment of an option, in nanoseconds since 1970, if it is present; `None` if its value isn't
/// a moment.
pub fn moment_in(matches: &ArgMatches<'_>, name: &str) -> Option<Option<u64>>
    ensures { result ≡ moment_named name.now (rows_of (found_of matches.now)) }
{
    let Some(word) = value_of(matches, name) else {
        return Some(None);
    };
    match moment_of(word) {
        Some(moment) => Some(Some(moment)),
        None => None,
    }
}

/// The captures, if they are at most as many as one audit takes.
pub fn captures_of<'a>(
    alloc: Global,
    matches: &ArgMatches<'a>,
) -> Result<Option<Vec<&'a str>>, AllocError>
    ensures some { IfOk result (λ found. IfSome found (λ captures. HasCaptures (rows_of (found_of matches.now)) (map (λ name. name.now) captures.items))) }
    ensures none { IfOk result (λ found. IfNone found ((names : List Text) → HasCaptures (rows_of (found_of matches.now)) names → ⊥)) }
{
    let Some(names) = all_values(matches, "captures") else {
        return Ok(None);
    };
    if names.len() > MAX_CAPTURES {
        return Ok(None);
    }
    Ok(Some(Vec::from_slice(alloc, names)?))
}
