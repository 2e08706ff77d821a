//! The policy of `ready`: a file, or made from coturn's configuration and the captures.

use super::PolicySource;
use super::work::{Staged, Work, files_of};
use crate::maker::{Maker, append_all};
use crate::source::Source;
use crate::stop::Stop;
use crate::surveying::survey_captures;
use crate::text::{read_conf_text, read_policy_text};
use audit_model::{Policy, Sink, put_all, read_policy};
use prep_coturn::{ConfFault, Options, Prepared, Renamed, prepare};
use prep_look::Survey;
use prep_translate::Translation;
use std::alloc::{AllocError, Global};
use std::fmt::Write;

/// The facts of the policy that the later steps need.
#[derive(Drop)]
pub struct Chosen {
    /// The address translations of the captures.
    pub translations: Vec<Translation>,
    /// Whether the captures have fragments of its service.
    pub has_fragments: bool,
}

/// The options that are added to a configuration.
#[derive(Drop)]
struct Added {
    listening: Vec<u32>,
    relaying: Vec<u32>,
    is_translated: bool,
    /// The addresses that are announced as other ones.
    renamed: Vec<Renamed>,
}

/// Writes the policy.
pub fn policy_step<S: Source, M: Maker, E: Sink>(
    alloc: Global,
    from: PolicySource<'_>,
    captures: &[Staged],
    work: &mut Work,
    source: &mut S,
    maker: &mut M,
    err: &mut E,
) -> Result<Chosen, Stop> {
    let survey = survey_of(alloc, captures, source)?;
    match from {
        PolicySource::Policy(name) => policy_from_file(alloc, name, &survey, work, source, maker),
        PolicySource::Configuration(name) => {
            let text = read_conf_text(alloc, source, name)?;
            configured(alloc, name, &text, &survey, work, maker, err)
        }
    }
}

/// Reads what the captures contain.
fn survey_of<S: Source>(
    alloc: Global,
    captures: &[Staged],
    source: &mut S,
) -> Result<Survey, Stop> {
    let files = files_of(alloc, captures)?;
    survey_captures(alloc, source, &files)
}

/// Uses a policy from a file. An address that clients were granted and that isn't in the captures
/// is translated.
fn policy_from_file<S: Source, M: Maker>(
    alloc: Global,
    name: &str,
    survey: &Survey,
    work: &mut Work,
    source: &mut S,
    maker: &mut M,
) -> Result<Chosen, Stop> {
    let text = read_policy_text(alloc, source, name)?;
    write_policy(&text, work, maker)?;
    work.begin_to("policy", "cat")?;
    work.operand(name)?;
    work.end_line()?;
    let policy = read_policy(alloc, &text)?;
    let translations = announced(alloc, &policy, survey)?;
    Ok(Chosen::new(alloc, policy, translations, survey)?)
}

/// The addresses of the policy that clients were granted and that aren't in the captures.
fn announced(
    alloc: Global,
    policy: &Policy,
    survey: &Survey,
) -> Result<Vec<Translation>, AllocError> {
    let mut translations = Vec::new(alloc);
    for one in survey.announced(alloc)? {
        if policy.service_ip(one.public) {
            translations.push(Translation {
                public: one.public,
                inner: one.private,
            })?;
        }
    }
    Ok(translations)
}

/// Makes the policy from a configuration and the captures.
fn configured<M: Maker, E: Sink>(
    alloc: Global,
    name: &str,
    text: &[u8],
    survey: &Survey,
    work: &mut Work,
    maker: &mut M,
    err: &mut E,
) -> Result<Chosen, Stop> {
    let mut added = Added::none(alloc);
    let policy = prepared_by(alloc, text, survey, &mut added, work, maker, err)?;
    by_hand(alloc, name, &added, work)?;
    let translations = translated(alloc, survey, &added)?;
    Ok(Chosen::new(alloc, policy, translations, survey)?)
}

impl Added {
    /// Nothing added.
    fn none(alloc: Global) -> Self {
        Added {
            listening: Vec::new(alloc),
            relaying: Vec::new(alloc),
            is_translated: false,
            renamed: Vec::new(alloc),
        }
    }
}

impl Chosen {
    /// A policy, and whether the captures have fragments of its service.
    fn new(
        alloc: Global,
        policy: Policy,
        translations: Vec<Translation>,
        survey: &Survey,
    ) -> Result<Self, AllocError> {
        let inner = inner_of(alloc, &translations)?;
        let has_fragments = survey.has_fragments(&policy, &inner);
        Ok(Chosen {
            translations,
            has_fragments,
        })
    }
}

/// The addresses of the captures that are translated.
fn inner_of(alloc: Global, translations: &[Translation]) -> Result<Vec<u32>, AllocError> {
    let mut ips = Vec::new(alloc);
    for one in translations {
        ips.push(one.inner)?;
    }
    Ok(ips)
}

/// Writes the text of a policy.
fn write_policy<M: Maker>(text: &[u8], work: &Work, maker: &mut M) -> Result<(), Stop> {
    let file = work.file("policy")?;
    maker.make(file.as_str())?;
    append_all(maker, text)?;
    maker.publish()?;
    Ok(())
}

/// Writes the policy of a configuration, with the addresses that the configuration lacks and the
/// captures have; unclear points go to `err`.
fn prepared_by<M: Maker, E: Sink>(
    alloc: Global,
    text: &[u8],
    survey: &Survey,
    added: &mut Added,
    work: &Work,
    maker: &mut M,
    err: &mut E,
) -> Result<Policy, Stop> {
    let prepared = prepare_with(alloc, text, survey, added)?;
    write_policy(prepared.policy.as_bytes(), work, maker)?;
    put_all(err, prepared.notes.as_bytes())?;
    Ok(read_policy(alloc, prepared.policy.as_bytes())?)
}

/// Prepares a configuration, with the options that it lacks: at most three kinds.
fn prepare_with(
    alloc: Global,
    text: &[u8],
    survey: &Survey,
    added: &mut Added,
) -> Result<Prepared, Stop> {
    for _ in 0..3 {
        match prepare_once(alloc, text, added) {
            Ok(prepared) => return Ok(prepared),
            Err(fault) => add(alloc, survey, fault, added)?,
        }
    }
    Ok(prepare_once(alloc, text, added)?)
}

/// Prepares a configuration with the added options.
fn prepare_once(alloc: Global, text: &[u8], added: &Added) -> Result<Prepared, ConfFault> {
    let options = Options {
        listening: &added.listening,
        relaying: &added.relaying,
        is_translated: added.is_translated,
    };
    prepare(alloc, text, &options)
}

/// Adds an option that a configuration lacks, or returns its fault.
fn add(alloc: Global, survey: &Survey, fault: ConfFault, added: &mut Added) -> Result<(), Stop> {
    match fault {
        ConfFault::NoListening => {
            added.listening = survey.answering(alloc)?;
            if added.listening.is_empty() {
                return Err(ConfFault::NoListening.into());
            }
        }
        ConfFault::NoRelaying { listening } => {
            added.relaying = Vec::from_slice(alloc, listening.as_slice())?;
        }
        ConfFault::NotTranslated { renamed, .. } => {
            added.is_translated = true;
            added.renamed = Vec::from_slice(alloc, renamed.as_slice())?;
        }
        fault => return Err(fault.into()),
    }
    Ok(())
}

/// The addresses that are announced as other ones and from which responses left in the captures.
fn translated(alloc: Global, survey: &Survey, added: &Added) -> Result<Vec<Translation>, Stop> {
    let answering = survey.answering(alloc)?;
    let mut translations = Vec::new(alloc);
    for one in &added.renamed {
        if answering.contains(&one.wire) {
            translations.push(Translation {
                public: one.public,
                inner: one.wire,
            })?;
        }
    }
    Ok(translations)
}

/// Records the command that writes the policy manually.
fn by_hand(alloc: Global, name: &str, added: &Added, work: &mut Work) -> Result<(), Stop> {
    work.begin_to("policy", "turnprep policy --turnserver-conf")?;
    work.operand(name)?;
    addresses(alloc, "--listening-ip", &added.listening, work)?;
    addresses(alloc, "--relay-ip", &added.relaying, work)?;
    if added.is_translated {
        work.word("--translated")?;
    }
    work.end_line()
}

/// An option with each of the addresses.
fn addresses(alloc: Global, option: &str, ips: &[u32], work: &mut Work) -> Result<(), Stop> {
    for ip in ips {
        let [a, b, c, d] = ip.to_be_bytes();
        let mut word = String::new(alloc);
        write!(word, "{a}.{b}.{c}.{d}")?;
        work.word(option)?;
        work.word(word.as_str())?;
    }
    Ok(())
}
