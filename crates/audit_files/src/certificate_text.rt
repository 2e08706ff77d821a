//! The text of a certificate, kept in memory until its lines are read.

ghost use Rattle.std.specs.Prelude.{◌≡◌, ℕ, [], IfErr, IfOk, List, Ok};
ghost use Rattle.audit_cert.specs.CertText.{cert_of};
ghost use Rattle.audit_cert.specs.Spelling.{said_by};
ghost use Rattle.audit_files.specs.CertificateTexts.{HasText};
ghost use Rattle.audit_files.specs.Refusals.{RefusesCertificate};

use crate::stop::Stop;
use crate::text::TextReading;
use audit_cert::CertificateReader;
use audit_model::Certificate;
use std::alloc::Global;

/// The most bytes that are kept, so that an endless text doesn't use all memory.
const KEPT: usize = 1 << 30;

/// The text of a certificate: the part that was read, and the rest.
#[derive(Drop)]
pub struct CertificateText {
    pub reader: CertificateReader,
    pub rest: Vec<u8>,
    /// Whether the reader was fed the first piece.
    pub begun: bool,
}

impl CertificateText {
    /// A text of no bytes. Allocates no memory.
    pub fn new(alloc: Global) -> CertificateText
        ensures { HasText result [] }
    {
        CertificateText {
            reader: CertificateReader::new(alloc),
            rest: Vec::new(alloc),
            begun: false,
        }
    }

    /// The certificate of the text, or its first fault. It reads the rest once, and frees it.
    pub fn read(self) -> Result<Certificate, Stop>
        ensures ok { (text : List ℕ) → HasText self text → IfOk result (λ certificate. cert_of text ≡ Ok (said_by certificate)) }
        ensures err { (text : List ℕ) → HasText self text → IfErr result (RefusesCertificate text) }
    {
        let reader = self.reader.feed(self.rest.as_slice())?;
        Ok(reader.finish()?)
    }
}

impl TextReading for CertificateText {
    ghost use Rattle.audit_files.specs.CertificateTexts.{HasText};
    ghost use Rattle.audit_files.specs.Refusals.{RefusesCertificate};

    type Whole = CertificateText;

    ghost stands = { HasText };

    ghost says = { λ text kept. HasText kept text };

    ghost refuses = { RefusesCertificate };

    /// Keeps the piece. The first one is read at once, so that a wrong file is refused at its
    /// beginning, and the kept bytes are read if they exceed `KEPT`.
    fn feed(self, piece: &[u8]) -> Result<Self, Stop> {
        let CertificateText {
            reader,
            mut rest,
            begun,
        } = self;
        if begun && rest.len().saturating_add(piece.len()) <= KEPT {
            rest.extend_from_slice(piece)?;
            return Ok(CertificateText {
                reader,
                rest,
                begun,
            });
        }
        let reader = reader.feed(rest.as_slice())?;
        let reader = reader.feed(piece)?;
        rest.clear();
        Ok(CertificateText {
            reader,
            rest,
            begun: true,
        })
    }

    /// A fault of the text so far comes first.
    fn stop(self, stop: Stop) -> Stop {
        match self.reader.feed(self.rest.as_slice()) {
            Ok(_) => stop,
            Err(fault) => Stop::from(fault),
        }
    }

    fn finish(self) -> Result<CertificateText, Stop> {
        Ok(self)
    }
}
