//! The arguments of the command `policy`.

ghost use Rattle.std.specs.Prelude.{◌≡◌, IfNone, IfOk, IfSome, Some, codes, map, option_map};
ghost use Rattle.audit_model.specs.AddressText.{ip_of};
ghost use Rattle.clap.specs.Words.{found_of, rows_of};
ghost use Rattle.prep_program.specs.Requests.{NamesNothing, Requests, all_read, values_of};

use super::values::{flag_of, value_of, values};
use super::{Request, usage};
use audit_model::read_ip;
use clap::ArgMatches;
use std::alloc::{AllocError, Global};

const NOT_AN_ADDRESS: &str = "turnprep: --listening-ip and --relay-ip are IPv4 addresses\n";

/// The addresses of the arguments, or `None` if one isn't an address.
fn addresses_in(alloc: Global, words: &[&str]) -> Result<Option<Vec<u32>>, AllocError>
    ensures { IfOk result (λ found. option_map (λ addresses. addresses.items) found ≡ all_read ip_of (map (λ word. word.now) words.now)) }
{
    let mut addresses = Vec::new(alloc);
    for word in words {
        match read_ip(word.as_bytes()) {
            Ok(ip) => addresses.push(ip)?,
            Err(_) => return Ok(None),
        }
    }
    Ok(Some(addresses))
}

/// The addresses of an option, or `None` if one isn't an address.
fn addresses_of(
    alloc: Global,
    matches: &ArgMatches<'_>,
    name: &str,
) -> Result<Option<Vec<u32>>, AllocError>
    ensures { IfOk result (λ found. option_map (λ addresses. addresses.items) found ≡ all_read ip_of (values_of name.now (rows_of (found_of matches.now)))) }
{
    let words = values(alloc, matches, name)?;
    addresses_in(alloc, words.as_slice())
}

/// The request of the arguments of `policy`.
pub fn policy_request<'a>(
    alloc: Global,
    matches: &ArgMatches<'a>,
) -> Result<Option<Request<'a>>, AllocError>
    ensures some { IfOk result (λ found. IfSome found (Requests (Some (codes "policy", rows_of (found_of matches.now))))) }
    ensures none { IfOk result (λ found. IfNone found (NamesNothing (Some (codes "policy", rows_of (found_of matches.now))))) }
{
    let Some(file) = value_of(matches, "turnserver-conf") else {
        return Ok(None);
    };
    let Some(listening) = addresses_of(alloc, matches, "listening-ip")? else {
        return usage(alloc, NOT_AN_ADDRESS);
    };
    let Some(relaying) = addresses_of(alloc, matches, "relay-ip")? else {
        return usage(alloc, NOT_AN_ADDRESS);
    };
    Ok(Some(Request::Policy {
        file,
        listening,
        relaying,
        is_translated: flag_of(matches, "translated"),
    }))
}
