//! The certificate text: a heading, skews in version 2, lines of lanes and drops, and `end`.

ghost use Rattle.std.specs.Prelude.{◌≡◌, MatchResult, Ok};
ghost use Rattle.audit_text.specs.Reading.{UnlessMemory};
ghost use Rattle.audit_text.specs.Token.{halves_of};
ghost use Rattle.audit_cert.specs.CertFault.{is_memory};

use crate::draft::CertificateDraft;
use crate::fault::CertFaultKind;
use audit_text::{Lines, halves};
use std::alloc::Global;
use std::marker::Model;

const HEADING: &[u8; 23] = b"turnaudit-certificate 1";

/// The heading of version 2, after which skews follow.
const SECOND_HEADING: &[u8; 23] = b"turnaudit-certificate 2";

/// Which line comes next.
#[derive(Clone, Copy, Debug, PartialEq, Eq)]
pub enum Stage {
    /// The heading.
    Heading,
    /// A skew, or if there was one also a line of `Lines`.
    Skews,
    /// A line of a lane or a drop, or `end`.
    Lines,
    /// None: `end` was there.
    Ended,
}

/// The content of the lines of a certificate text so far.
#[derive(Drop)]
pub struct CertificateLines {
    draft: CertificateDraft,
    stage: Stage,
}

impl Model for CertificateLines {
    ghost use Rattle.audit_cert.specs.DraftView.{Progress};

    ghost Value = { Progress };

    ghost view = { λ lines. record { stage = lines.stage; said = lines.draft } };
}

impl CertificateLines {
    ghost use Rattle.audit_cert.specs.CertText.{begun, after, after_heading, after_other, after_skews, among_skews};

    /// No line yet. Allocates no memory.
    pub fn new(alloc: Global) -> CertificateLines
        ensures { result ≡ begun }
    {
        CertificateLines {
            draft: CertificateDraft::new(alloc),
            stage: Stage::Heading,
        }
    }

    fn add_heading(&mut self, line: &[u8]) -> Result<(), CertFaultKind>
        ensures { MatchResult result (λ _. after_heading self.old.said line.now ≡ Ok self.new)
            (λ fault. UnlessMemory is_memory fault (after_heading self.old.said line.now)) }
    {
        if line == HEADING.as_slice() {
            self.stage = Stage::Lines;
        } else if line == SECOND_HEADING.as_slice() {
            self.stage = Stage::Skews;
        } else {
            return Err(CertFaultKind::Heading);
        }
        Ok(())
    }

    /// Adds a line of a lane or a drop, or `end`.
    fn add_other(&mut self, line: &[u8]) -> Result<(), CertFaultKind>
        ensures { MatchResult result (λ _. after_other self.old.said line.now ≡ Ok self.new)
            (λ fault. UnlessMemory is_memory fault (after_other self.old.said line.now)) }
    {
        if line == b"end".as_slice() {
            self.stage = Stage::Ended;
            return Ok(());
        }
        self.draft.add_line(line)?;
        self.stage = Stage::Lines;
        Ok(())
    }

    /// Adds the first line that is no skew.
    fn add_behind_skews(&mut self, line: &[u8]) -> Result<(), CertFaultKind>
        ensures { MatchResult result (λ _. after_skews self.old.said line.now ≡ Ok self.new)
            (λ fault. UnlessMemory is_memory fault (after_skews self.old.said line.now)) }
    {
        if !self.draft.has_skews() {
            return Err(CertFaultKind::Line);
        }
        self.add_other(line)
    }

    /// Adds a skew, or the line after the last of them.
    fn add_among_skews(&mut self, line: &[u8]) -> Result<(), CertFaultKind>
        ensures { MatchResult result (λ _. among_skews (halves_of 32 line.now) self.old.said line.now ≡ Ok self.new)
            (λ fault. UnlessMemory is_memory fault (among_skews (halves_of 32 line.now) self.old.said line.now)) }
    {
        let Ok((word, words)) = halves(line, b' ') else {
            return self.add_behind_skews(line);
        };
        if word != b"skew".as_slice() {
            return self.add_behind_skews(line);
        }
        self.draft.add_skew(words)?;
        self.stage = Stage::Skews;
        Ok(())
    }

    /// Adds a line: the heading first, and none after `end`.
    #[tactic(auto, unfolding(crate::specs::CertText::after))]
    fn add(&mut self, line: &[u8]) -> Result<(), CertFaultKind>
        ensures { MatchResult result (λ _. after self.old line.now ≡ Ok self.new)
            (λ fault. UnlessMemory is_memory fault (after self.old line.now)) }
    {
        match self.stage {
            Stage::Heading => self.add_heading(line),
            Stage::Skews => self.add_among_skews(line),
            Stage::Lines => self.add_other(line),
            Stage::Ended => Err(CertFaultKind::Line),
        }
    }

    /// The content of the lines.
    pub fn into_draft(self) -> CertificateDraft
        ensures { result ≡ self.said }
    {
        self.draft
    }
}

impl Lines for CertificateLines {
    ghost use Rattle.audit_cert.specs.DraftView.{Progress};
    ghost use Rattle.audit_cert.specs.CertText.{Says, after, unended, overlong, lacks};

    type Kind = CertFaultKind;

    ghost said = { Progress };

    ghost says = { Says };

    ghost after = { after };

    ghost unended = { unended };

    ghost overlong = { overlong };

    ghost lacks = { lacks };

    ghost is_memory = { is_memory };

    fn take_line(&mut self, line: &[u8]) -> Result<(), CertFaultKind> {
        self.add(line)
    }

    fn unended(&self, _rest: &[u8]) -> CertFaultKind {
        self.overlong()
    }

    fn overlong(&self) -> CertFaultKind {
        match self.stage {
            Stage::Heading => CertFaultKind::Heading,
            Stage::Skews | Stage::Lines | Stage::Ended => CertFaultKind::Line,
        }
    }

    fn lacks(&self) -> Option<CertFaultKind> {
        match self.stage {
            Stage::Heading => Some(CertFaultKind::Heading),
            Stage::Skews | Stage::Lines => Some(CertFaultKind::EndMissing),
            Stage::Ended => None,
        }
    }

    fn no_memory() -> CertFaultKind {
        CertFaultKind::Memory
    }
}
