//! The page.

ghost use Rattle.std.specs.Prelude.{◌≡◌, ◌++◌, IfOk, List, ℕ, string_bytes};
ghost use Rattle.prep_look.specs.PolicyLines.{answers_text, granted_text};

use crate::advising::{Findings, advise, find_all};
use crate::answering::lines_of_answers;
use crate::granting::lines_of_granted;
use crate::interface::Interface;
use crate::passed::Passed;
use crate::survey::Survey;
use audit_model::{Policy, Side};
use prep_reasons::Sheet;
use prep_records::{Content, Record};
use std::alloc::{AllocError, Global};
use std::collections::BTreeMap;
use std::fmt::Write;

/// Datagrams of the service at an interface, by side.
#[derive(Clone, Copy)]
struct Sides {
    client_in: u64,
    client_out: u64,
    relay_in: u64,
    relay_out: u64,
    inside: u64,
}

impl Sides {
    fn none() -> Self {
        Sides {
            client_in: 0,
            client_out: 0,
            relay_in: 0,
            relay_out: 0,
            inside: 0,
        }
    }

    /// With one more datagram.
    fn with(self, record: &Record) -> Self {
        let mut sides = self;
        match (record.content, record.side) {
            (Content::Inside, _) => sides.inside = one_more(sides.inside),
            (Content::Relayed, Side::Arrives) => sides.relay_in = one_more(sides.relay_in),
            (Content::Relayed, Side::Leaves) => sides.relay_out = one_more(sides.relay_out),
            (_, Side::Arrives) => sides.client_in = one_more(sides.client_in),
            (_, Side::Leaves) => sides.client_out = one_more(sides.client_out),
        }
        sides
    }

    fn total(&self) -> u64 {
        self.client_in
            .saturating_add(self.client_out)
            .saturating_add(self.relay_in)
            .saturating_add(self.relay_out)
            .saturating_add(self.inside)
    }
}

fn one_more(count: u64) -> u64 {
    count.saturating_add(1)
}

/// The page up to the suggested policy, whose heading is its last line. It contains only numbers,
/// addresses and fixed words, no bytes of the captures. The cost is the number of records times its
/// logarithm. The contract states the lines about addresses of the policy.
pub fn page_of(
    alloc: Global,
    survey: Survey,
    policy: &Policy,
    sheet: &Sheet<'_>,
) -> Result<String, AllocError>
    ensures { IfOk result (λ page. (before after : List ℕ) × (string_bytes page ≡ before ++ (answers_text policy.now survey.answers.entries ++ (granted_text policy.now survey.granted.items ++ after)))) }
{
    let mut survey = survey;
    let mut page = head_of(alloc, &mut survey.interfaces, sheet)?;
    let rest = rest_of(alloc, &survey, policy, sheet)?;
    page.push_str(lines_of_answers(alloc, &survey.answers, policy)?.as_str())?;
    page.push_str(lines_of_granted(alloc, &survey.granted, policy)?.as_str())?;
    page.push_str(rest.as_str())?;
    Ok(page)
}

/// The lines of interfaces.
fn head_of(
    alloc: Global,
    interfaces: &mut Vec<Interface>,
    sheet: &Sheet<'_>,
) -> Result<String, AllocError> {
    let mut head = String::from_str(alloc, "turnprep-look 1\n")?;
    write_interfaces(alloc, &mut head, interfaces, sheet)?;
    Ok(head)
}

/// The lines after those of addresses.
fn rest_of(
    alloc: Global,
    survey: &Survey,
    policy: &Policy,
    sheet: &Sheet<'_>,
) -> Result<String, AllocError> {
    let found = find_all(alloc, survey, policy, sheet)?;
    let mut rest = String::new(alloc);
    write_findings(&mut rest, &found)?;
    let advices = advise(alloc, survey, policy, &found)?;
    for advice in &advices {
        write!(rest, "advice {advice}\n")?;
    }
    rest.push_str("suggested-policy\n")?;
    Ok(rest)
}

/// Three lines for each interface.
fn write_interfaces(
    alloc: Global,
    page: &mut String,
    interfaces: &mut Vec<Interface>,
    sheet: &Sheet<'_>,
) -> Result<(), AllocError> {
    let mut sides: BTreeMap<u32, Sides> = BTreeMap::new(alloc);
    for at in 0..sheet.len() {
        if let Some(record) = sheet.record(at) {
            let number = u32::from(record.iface);
            let earlier = match sides.get(&number) {
                Some(earlier) => *earlier,
                None => Sides::none(),
            };
            sides.insert(number, earlier.with(&record))?;
        }
    }
    for place in 0..interfaces.len() {
        let Some(one) = interfaces.get_mut(place) else {
            return Ok(());
        };
        let sides = match sides.get(&one.number) {
            Some(sides) => *sides,
            None => Sides::none(),
        };
        let elsewhere = one.datagrams.saturating_sub(sides.total());
        if elsewhere > 0 {
            one.passed.insert(Passed::Elsewhere, elsewhere)?;
        }
        write_interface(page, one)?;
        write_sides(page, one.number, &sides)?;
        write_passed(page, one)?;
    }
    Ok(())
}

/// Writes the lines of an interface. Captures that drop packets are refused, so no dropped packets
/// are counted.
fn write_interface(page: &mut String, one: &Interface) -> Result<(), AllocError> {
    let number = one.number;
    let frames = one.stamps.frames;
    let first = one.stamps.first;
    let last = one.stamps.last;
    let back = one.stamps.back;
    let most = one.stamps.most;
    let statistics = one.statistics;
    write!(
        page,
        "interface {number} frames {frames} from {first} to {last} "
    )?;
    write!(
        page,
        "back {back} most {most} statistics {statistics} drops 0\n"
    )
}

fn write_sides(page: &mut String, number: u32, sides: &Sides) -> Result<(), AllocError> {
    let client_in = sides.client_in;
    let client_out = sides.client_out;
    let relay_in = sides.relay_in;
    let relay_out = sides.relay_out;
    let inside = sides.inside;
    write!(
        page,
        "service {number} client-in {client_in} client-out {client_out} "
    )?;
    write!(
        page,
        "relay-in {relay_in} relay-out {relay_out} inside {inside}\n"
    )
}

fn write_passed(page: &mut String, one: &Interface) -> Result<(), AllocError> {
    if one.passed.is_empty() {
        return Ok(());
    }
    let number = one.number;
    write!(page, "passed {number}")?;
    for (passed, count) in one.passed.iter() {
        let count = *count;
        write!(page, " {passed} {count}")?;
    }
    page.push_str("\n")
}

/// Writes the delays, and what `cut` would exclude.
fn write_findings(page: &mut String, found: &Findings) -> Result<(), AllocError> {
    let answered = found.answered.count;
    if answered > 0 {
        let longest = found.answered.longest / 1_000;
        write!(page, "answered {answered} longest-us {longest}\n")?;
    }
    for (interfaces, crossing) in found.crossings.between.iter() {
        let (arrival, departure) = *interfaces;
        let pairs = crossing.count;
        let least = crossing.least.div_euclid(1_000);
        let longest = crossing.longest.div_euclid(1_000);
        write!(
            page,
            "relayed {arrival} {departure} pairs {pairs} least-us {least} longest-us {longest}\n"
        )?;
    }
    for one in &found.unjudged {
        let kind = one.kind;
        let arrived = one.arrived;
        let left = one.left;
        let lines = one.lines;
        write!(page, "unjudged {kind} {lines} in {arrived} out {left}\n")?;
    }
    Ok(())
}
