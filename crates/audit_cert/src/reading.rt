//! Reads a certificate text.

ghost use Rattle.std.specs.Prelude.{◌≡◌, ◌++◌, [], ℕ, List, true, false, IfOk, IfErr, MatchResult, Ok, Err};
ghost use Rattle.audit_text.specs.Reading.{UnlessMemory};
ghost use Rattle.audit_cert.specs.CertFault.{is_memory};
ghost use Rattle.audit_cert.specs.DraftView.{Drafted};
ghost use Rattle.audit_cert.specs.Fits.{IsCertificate};
ghost use Rattle.audit_cert.specs.CertText.{cert_of, StandsFor};
ghost use Rattle.audit_cert.specs.Spelling.{spelling, said_by};

use crate::fault::CertFault;
use crate::lines::CertificateLines;
use audit_model::Certificate;
use audit_text::TextReader;
use std::alloc::Global;
use std::marker::Model;

/// Reads a certificate text that comes in pieces, split anywhere.
#[derive(Drop)]
pub struct CertificateReader {
    reader: TextReader<CertificateLines>,
}

impl Model for CertificateReader {
    ghost use Rattle.audit_text.specs.Reading.{SoFar};
    ghost use Rattle.audit_cert.specs.DraftView.{Progress};

    ghost Value = { SoFar Progress };

    ghost view = { λ reader. reader.reader };
}

impl CertificateReader {
    /// A reader of no bytes. Allocates no memory.
    pub fn new(alloc: Global) -> CertificateReader
        ensures { StandsFor result [] }
    {
        CertificateReader {
            reader: TextReader::new(alloc, CertificateLines::new(alloc)),
        }
    }

    /// Reads the next piece of the text, or returns the first fault of the text so far. Every text
    /// that continues these bytes has the same fault, however it is split. After a fault the reader
    /// is consumed.
    #[tactic(auto, unfolding(crate::specs::CertText::cert_of))]
    pub fn feed(self, piece: &[u8]) -> Result<CertificateReader, CertFault>
        ensures ok { (text : List ℕ) → StandsFor self text → IfOk result (λ fed. StandsFor fed (text ++ piece.now)) }
        ensures err { (text : List ℕ) → StandsFor self text → (more : List ℕ) →
            IfErr result (λ fault. UnlessMemory (λ f. is_memory f.kind) fault (cert_of (text ++ piece.now ++ more))) }
    {
        Ok(CertificateReader {
            reader: self.reader.feed(piece)?,
        })
    }

    /// The certificate of the text that ends here, or its first fault. Allocates no memory.
    #[tactic(auto, unfolding(crate::specs::CertText::cert_of))]
    pub fn finish(self) -> Result<Certificate, CertFault>
        ensures { (text : List ℕ) → StandsFor self text → MatchResult result (λ cert. cert_of text ≡ Ok (said_by cert)) (λ fault. cert_of text ≡ Err fault) }
    {
        match self.reader.finish() {
            Ok(lines) => Ok(lines.into_draft().certificate()),
            Err(fault) => Err(fault),
        }
    }
}

/// The content of the text, line by line.
fn read_text(alloc: Global, text: &[u8]) -> Result<Certificate, CertFault>
    ensures { MatchResult result (λ cert. cert_of text.now ≡ Ok (said_by cert))
        (λ fault. UnlessMemory (λ f. is_memory f.kind) fault (cert_of text.now)) }
{
    CertificateReader::new(alloc).feed(text)?.finish()
}

/// The certificate of a text, or its first fault: the kind, and the line from 1. It reads the text
/// once, and takes n log n time in the lanes.
pub fn read(alloc: Global, text: &[u8]) -> Result<Certificate, CertFault>
    ensures exact { MatchResult result (λ cert. cert_of text.now ≡ Ok (said_by cert))
        (λ fault. UnlessMemory (λ f. is_memory f.kind) fault (cert_of text.now)) }
    // The text is the spelling of the certificate that is read.
    ensures found { IfOk result (λ cert. text.now ≡ spelling (said_by cert)) }
    // A certificate is read from its spelling, unless memory runs out.
    ensures only { (said : Drafted) → IsCertificate said → text.now ≡ spelling said
        → MatchResult result (λ cert. said_by cert ≡ said) (λ fault. is_memory fault.kind ≡ true) }
{
    read_text(alloc, text)
}
