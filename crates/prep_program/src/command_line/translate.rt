//! The arguments of the command `translate`.

ghost use Rattle.std.specs.Prelude.{◌≡◌, IfNone, IfOk, IfSome, Some, codes, map, option_map};
ghost use Rattle.clap.specs.Words.{found_of, rows_of};
ghost use Rattle.prep_program.specs.Requests.{NamesNothing, Requests, all_read};
ghost use Rattle.prep_translate.specs.Words.{pair_of};

use super::values::{captures_of, value_of, values};
use super::{Request, usage};
use crate::translating::TranslateRequest;
use clap::ArgMatches;
use prep_translate::Translation;
use std::alloc::{AllocError, Global};

const NOT_A_PAIR: &str = "turnprep: --external-ip is PUBLIC/PRIVATE, two IPv4 addresses\n";

const TOO_MANY: &str =
    "turnprep: translate takes 16 captures and 64 words of --external-ip at the most\n";

/// The most relay ranges that a policy has.
const MAX_TRANSLATIONS: usize = 64;

/// The translations of the arguments, or `None` if one isn't a translation.
fn translations_in(alloc: Global, words: &[&str]) -> Result<Option<Vec<Translation>>, AllocError>
    ensures { IfOk result (λ found. option_map (λ translations. translations.items) found ≡ all_read pair_of (map (λ word. word.now) words.now)) }
{
    let mut translations = Vec::new(alloc);
    for word in words {
        match Translation::read(word.as_bytes()) {
            Ok(translation) => translations.push(translation)?,
            Err(_) => return Ok(None),
        }
    }
    Ok(Some(translations))
}

/// The request of the arguments.
pub fn translate_request<'a>(
    alloc: Global,
    matches: &ArgMatches<'a>,
) -> Result<Option<Request<'a>>, AllocError>
    ensures some { IfOk result (λ found. IfSome found (Requests (Some (codes "translate", rows_of (found_of matches.now))))) }
    ensures none { IfOk result (λ found. IfNone found (NamesNothing (Some (codes "translate", rows_of (found_of matches.now))))) }
{
    let Some(policy) = value_of(matches, "policy") else {
        return Ok(None);
    };
    let Some(folder) = value_of(matches, "out") else {
        return Ok(None);
    };
    let Some(captures) = captures_of(alloc, matches)? else {
        return usage(alloc, TOO_MANY);
    };
    let words = values(alloc, matches, "external-ip")?;
    if words.len() > MAX_TRANSLATIONS {
        return usage(alloc, TOO_MANY);
    }
    let Some(translations) = translations_in(alloc, words.as_slice())? else {
        return usage(alloc, NOT_A_PAIR);
    };
    Ok(Some(Request::Translate(TranslateRequest {
        policy,
        translations,
        folder,
        captures,
    })))
}
