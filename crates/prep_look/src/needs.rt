//! What captures need before an audit, for `turnprep ready`.

use crate::advice::Advice;
use crate::advising::{advise, find_all};
use crate::survey::Survey;
use audit_model::Policy;
use prep_cut::ReasonKind;
use prep_reasons::Sheet;
use std::alloc::{AllocError, Global};
use std::fmt::Write;

/// The moments around a restart of the server, in nanoseconds since 1970.
#[derive(Clone, Copy, Debug, PartialEq, Eq)]
pub struct Restart {
    /// The last moment before it.
    pub until: u64,
    /// The first moment after it.
    pub since: u64,
}

/// An IPv4 address that clients are granted instead of the one on the server's interface.
#[derive(Clone, Copy, Debug, PartialEq, Eq)]
pub struct Announced {
    pub public: u32,
    pub private: u32,
}

/// What captures need before an audit by a policy.
#[derive(Debug, Drop)]
pub struct Needs {
    /// `cut` excludes datagrams, also without `--released-ms`.
    pub excludes: bool,
    /// The end of the interface that ends first, if departures after it have no cause.
    pub until: Option<u64>,
    /// The server was restarted.
    pub restart: Option<Restart>,
    /// Further advice, a line each.
    pub notes: String,
}

/// What captures need, if data up to this number of milliseconds after deletions is excluded. The
/// cost is the number of records times its logarithm.
pub fn needs_of(
    alloc: Global,
    survey: &Survey,
    policy: &Policy,
    sheet: &Sheet<'_>,
    released_ms: u64,
) -> Result<Needs, AllocError> {
    let found = find_all(alloc, survey, policy, sheet)?;
    let mut needs = Needs {
        excludes: found
            .unjudged
            .iter()
            .any(|one| one.kind != ReasonKind::Released),
        until: None,
        restart: None,
        notes: String::new(alloc),
    };
    for advice in &advise(alloc, survey, policy, &found)? {
        match advice {
            Advice::Released(relaying) if relaying.milliseconds() <= released_ms => {}
            advice => needs.take(advice)?,
        }
    }
    Ok(needs)
}

impl Needs {
    /// Adds the need by a line of advice.
    fn take(&mut self, advice: &Advice) -> Result<(), AllocError> {
        match advice {
            Advice::Exclude { .. } => {}
            Advice::Ended(ended) => self.until = Some(ended.end),
            Advice::Lost(losses) => {
                self.restart = Some(Restart {
                    until: losses.quiet_from,
                    since: losses.quiet_from.saturating_add(1),
                });
            }
            Advice::Restarted(closed) => {
                self.restart = Some(Restart {
                    until: closed.first.saturating_sub(1),
                    since: closed.last.saturating_add(1),
                });
            }
            _ => write!(self.notes, "note {advice}\n")?,
        }
        Ok(())
    }
}

impl Survey {
    /// Whether there are fragments of UDP datagrams over IPv4 with an address of the service, or
    /// with one of these.
    pub fn has_fragments(&self, policy: &Policy, ips: &[u32]) -> bool {
        self.fragments_of(policy) > 0
            || self
                .fragments
                .keys()
                .any(|ends| ips.contains(&ends.0) || ips.contains(&ends.1))
    }

    /// The addresses that clients are granted and that aren't in the captures, each with the
    /// address that has its ports there.
    pub fn announced(&self, alloc: Global) -> Result<Vec<Announced>, AllocError> {
        let mut all = Vec::new(alloc);
        for alias in &self.aliases {
            if alias.is_likely() {
                all.push(Announced {
                    public: alias.public,
                    private: alias.private,
                })?;
            }
        }
        Ok(all)
    }

    /// The IPv4 addresses from which Allocate success responses, or else Binding success responses,
    /// left, in order and each once.
    pub fn answering(&self, alloc: Global) -> Result<Vec<u32>, AllocError> {
        let allocate = self.answers.values().any(|one| one.allocate > 0);
        let mut ips: Vec<u32> = Vec::new(alloc);
        for (addr, one) in self.answers.iter() {
            let is_new = ips.last().copied() != Some(addr.ip);
            if is_new && (one.allocate > 0 || !allocate) {
                ips.push(addr.ip)?;
            }
        }
        Ok(ips)
    }
}
