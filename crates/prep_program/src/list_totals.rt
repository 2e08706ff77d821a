//! The end of the list of what is excluded: the sums over its lines and captures.

ghost use Rattle.std.specs.Prelude.{◌≡◌, IfOk, string_bytes};
ghost use Rattle.prep_program.specs.ListText.{counts_text, others_text, sums_of, sums_text, kept_of, kept_text, share_of, is_client, clients_with, departures_of, excluded_of, share_text, departures_text, excluded_text, totals_text};

use prep_cut::{Count, Reason, Tallies, Tally, Totals};
use std::alloc::{AllocError, Global};

/// The numbers of the list that the lines don't count.
#[derive(Clone, Copy)]
pub struct Notes {
    pub begin: u64,
    pub beyond: u64,
    pub lanes: u64,
}

/// The sums of all that is excluded.
#[derive(Clone, Copy)]
pub struct Sums {
    pub arrived: Count,
    pub left: Count,
    /// Packets that aren't datagrams of the service.
    pub others: u64,
}

/// The excluded departures.
#[derive(Clone, Copy)]
pub struct Departures {
    /// Those that need an arrival of their own, or a packet that may have carried their data, and
    /// have neither.
    pub unpaired: u64,
    /// Those whose data packets that aren't read may have carried.
    pub unread: u64,
    /// The number of clients from before.
    pub clients: u64,
}

/// The counts of a line, as ` in 3 4 out 5 6`.
pub fn text_of_counts(alloc: Global, arrived: Count, left: Count) -> Result<String, AllocError>
    ensures { IfOk result (λ text. string_bytes text ≡ counts_text arrived left) }
{
    let arrivals = arrived.datagrams;
    let in_bytes = arrived.bytes;
    let departures = left.datagrams;
    let out_bytes = left.bytes;
    format!(in alloc; " in {arrivals} {in_bytes} out {departures} {out_bytes}")
}

/// The number of packets that aren't datagrams of the service, if there are any.
pub fn text_of_others(alloc: Global, is_printed: bool, others: u64) -> Result<String, AllocError>
    ensures { IfOk result (λ text. string_bytes text ≡ others_text is_printed others) }
{
    if is_printed {
        format!(in alloc; " other {others}")
    } else {
        Ok(String::new(alloc))
    }
}

/// The sums of all that is excluded.
pub fn add_up(tallies: &[Tally]) -> Sums
    ensures { result ≡ sums_of tallies.now }
{
    let mut sums = Sums {
        arrived: Count::none(),
        left: Count::none(),
        others: 0,
    };
    for tally in tallies {
        sums = Sums {
            arrived: sums.arrived.plus(tally.arrived),
            left: sums.left.plus(tally.left),
            others: sums.others.saturating_add(tally.others),
        };
    }
    sums
}

/// The line of the sums of all that is excluded.
fn line_of_sums(alloc: Global, sums: &Sums) -> Result<String, AllocError>
    ensures { IfOk result (λ line. string_bytes line ≡ sums_text sums.now) }
{
    let mut line = String::from_str(alloc, "aside")?;
    line.push_str(text_of_counts(alloc, sums.arrived, sums.left)?.as_str())?;
    line.push_str(text_of_others(alloc, sums.others > 0, sums.others)?.as_str())?;
    line.push_str("\n")?;
    Ok(line)
}

/// The datagrams that are kept.
pub fn kept_in(totals: &[Totals]) -> u64
    ensures { result ≡ kept_of totals.now }
{
    let mut kept = 0u64;
    for one in totals {
        kept = kept.saturating_add(one.datagrams);
    }
    kept
}

/// The lines of what is kept.
fn lines_of_kept(alloc: Global, notes: &Notes, kept: u64) -> Result<String, AllocError>
    ensures { IfOk result (λ lines. string_bytes lines ≡ kept_text notes.now kept) }
{
    let beyond = notes.beyond;
    let lanes = notes.lanes;
    format!(in alloc; "beyond {beyond}\nkept {kept} datagrams {lanes} lanes\n")
}

/// A part in percent, rounded up.
fn share(part: u64, whole: u64) -> u128
    ensures { result ≡ share_of part whole }
{
    if whole == 0 {
        return 0;
    }
    (u128::from(part) * 100 + u128::from(whole - 1)) / u128::from(whole)
}

/// Whether a line names a client from before, and counts something.
fn names_client(reason: &Reason, tally: &Tally) -> bool
    ensures { result ≡ is_client reason.now tally.now }
{
    match reason {
        Reason::Client(_) => tally.is_some(),
        _ => false,
    }
}

/// The number of clients from before that the lines name.
fn clients_in(lines: &[Reason], tallies: &[Tally]) -> u64
    ensures { result ≡ clients_with 0 lines.now tallies.now }
{
    let mut clients = 0u64;
    let mut rest = tallies;
    for reason in lines {
        let Some((tally, behind)) = rest.split_first() else {
            return clients;
        };
        if names_client(reason, tally) {
            clients = clients.saturating_add(1);
        }
        rest = behind;
    }
    clients
}

/// The numbers of excluded departures: those with neither an arrival of their own nor a packet that
/// may have carried their data, and those whose data unread packets may have carried.
pub fn departures_in(lines: &[Reason], tallies: &Tallies) -> Departures
    ensures { result ≡ departures_of lines.now tallies.now }
{
    let carried = tallies.carried();
    let unpaired = tallies.owing().saturating_sub(tallies.pairs() as u64);
    Departures {
        unpaired: unpaired.saturating_sub(carried),
        unread: carried,
        clients: clients_in(lines, tallies.as_slice()),
    }
}

/// How many datagrams are excluded, of how many, and the share.
fn text_of_share(alloc: Global, excluded: u64, all: u64) -> Result<String, AllocError>
    ensures { IfOk result (λ text. string_bytes text ≡ share_text excluded all) }
{
    let share = share(excluded, all);
    format!(in alloc; "excluded {excluded} of {all} datagrams {share} percent")
}

/// The departures among them, and the clients from before.
fn text_of_departures(
    alloc: Global,
    all: u64,
    departures: &Departures,
) -> Result<String, AllocError>
    ensures { IfOk result (λ text. string_bytes text ≡ departures_text all departures.now) }
{
    let unpaired = departures.unpaired;
    let unread = departures.unread;
    let clients = departures.clients;
    format!(in alloc; " departures {all} unpaired {unpaired} unread {unread} clients {clients}\n")
}

/// The line of the excluded datagrams, with their share.
fn line_of_excluded(
    alloc: Global,
    sums: &Sums,
    all: u64,
    departures: &Departures,
) -> Result<String, AllocError>
    ensures { IfOk result (λ line. string_bytes line ≡ excluded_text sums.now all departures.now) }
{
    let mut line = text_of_share(alloc, excluded_in(sums), all)?;
    line.push_str(text_of_departures(alloc, sums.left.datagrams, departures)?.as_str())?;
    Ok(line)
}

/// The excluded datagrams.
fn excluded_in(sums: &Sums) -> u64
    ensures { result ≡ excluded_of sums.now }
{
    sums.arrived.datagrams.saturating_add(sums.left.datagrams)
}

/// The last lines of the list, with the sums over all lines.
pub fn lines_of_totals(
    alloc: Global,
    notes: &Notes,
    sums: &Sums,
    kept: u64,
    departures: &Departures,
) -> Result<String, AllocError>
    ensures { IfOk result (λ lines. string_bytes lines ≡ totals_text notes.now sums.now kept departures.now) }
{
    let all = excluded_in(sums).saturating_add(kept);
    let mut lines = line_of_sums(alloc, sums)?;
    lines.push_str(line_of_excluded(alloc, sums, all, departures)?.as_str())?;
    lines.push_str(lines_of_kept(alloc, notes, kept)?.as_str())?;
    Ok(lines)
}
