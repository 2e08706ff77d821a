//! Reads the texts of a run, piece by piece.

ghost use Rattle.std.specs.Prelude.{◌≡◌, ◌⊎◌, ◌++◌, ℕ, [], IfErr, IfOk, List, Some};
ghost use Rattle.audit_files.specs.Refusals.{EndsReading};

use crate::source::{PIECE, Source};
use crate::stop::Stop;
use audit_cert::CertificateReader;
use audit_keys::{Credentials, CredentialsReader};
use audit_model::{Certificate, Policy, PolicyReader};
use std::alloc::Global;

/// A reader of a text.
pub trait TextReading: Drop + Sized {
    ghost use Rattle.std.specs.Prelude.{ℕ, List};
    ghost use Rattle.audit_files.specs.declared.stop.Stop.{Stop};

    /// The content of the text.
    type Whole;

    /// It was fed this text, which has no fault so far.
    ghost stands: { Self → List ℕ → Type 0 };

    /// The text that ends here has this content.
    ghost says: { List ℕ → Self.Whole → Type 0 };

    /// The text is refused for this reason.
    ghost refuses: { List ℕ → Stop → Type 0 };

    /// Reads the next piece of the text. If it is refused, so is each text that continues it.
    fn feed(self, piece: &[u8]) -> Result<Self, Stop>
        ensures ok { (text : List ℕ) → stands self text → IfOk result (λ fed. stands fed (text ++ piece.now)) }
        ensures err { (text : List ℕ) → stands self text → (more : List ℕ) → IfErr result (refuses (text ++ piece.now ++ more)) };

    /// Why the reading ends, if the text can't be read on for this reason.
    fn stop(self, stop: Stop) -> Stop
        ensures { (text : List ℕ) → stands self text → (more : List ℕ) → (result ≡ stop) ⊎ refuses (text ++ more) result }
    {
        stop
    }

    /// The content of the text that ends here.
    fn finish(self) -> Result<Self::Whole, Stop>
        ensures ok { (text : List ℕ) → stands self text → IfOk result (says text) }
        ensures err { (text : List ℕ) → stands self text → IfErr result (refuses text) };
}

impl TextReading for PolicyReader {
    ghost use Rattle.audit_files.specs.Refusals.{RefusesPolicy};
    ghost use Rattle.std.specs.Prelude.{◌≡◌, Ok};
    ghost use Rattle.audit_model.specs.PolicyText.{policy_of, StandsFor};

    type Whole = Policy;

    ghost stands = { StandsFor };

    ghost says = { λ text policy. policy_of text ≡ Ok policy };

    ghost refuses = { RefusesPolicy };

    fn feed(self, piece: &[u8]) -> Result<Self, Stop> {
        Ok(PolicyReader::feed(self, piece)?)
    }

    fn finish(self) -> Result<Policy, Stop> {
        Ok(PolicyReader::finish(self)?)
    }
}

impl TextReading for CredentialsReader {
    ghost use Rattle.audit_files.specs.Refusals.{RefusesCredentials};
    ghost use Rattle.audit_text.specs.Readers.{Took};
    ghost use Rattle.audit_keys.specs.CredText.{credentials_of};
    ghost use Rattle.audit_keys.specs.CredentialsReader.{StandsFor};
    ghost use Rattle.audit_keys.specs.KeyFor.{HasKeysOf};

    type Whole = Credentials;

    ghost stands = { StandsFor };

    ghost says = { λ text credentials. Took HasKeysOf (credentials_of text) credentials };

    ghost refuses = { RefusesCredentials };

    fn feed(self, piece: &[u8]) -> Result<Self, Stop> {
        Ok(CredentialsReader::feed(self, piece)?)
    }

    fn finish(self) -> Result<Credentials, Stop> {
        Ok(CredentialsReader::finish(self)?)
    }
}

impl TextReading for CertificateReader {
    ghost use Rattle.audit_files.specs.Refusals.{RefusesCertificate};
    ghost use Rattle.std.specs.Prelude.{◌≡◌, Ok};
    ghost use Rattle.audit_cert.specs.CertText.{cert_of, StandsFor};
    ghost use Rattle.audit_cert.specs.Spelling.{said_by};

    type Whole = Certificate;

    ghost stands = { StandsFor };

    ghost says = { λ text certificate. cert_of text ≡ Ok (said_by certificate) };

    ghost refuses = { RefusesCertificate };

    fn feed(self, piece: &[u8]) -> Result<Self, Stop> {
        Ok(CertificateReader::feed(self, piece)?)
    }

    fn finish(self) -> Result<Certificate, Stop> {
        Ok(CertificateReader::finish(self)?)
    }
}

/// The content of a file's text. It is read to its end, or to the piece in which it is refused.
pub fn read_text<S: Source, R: TextReading>(
    alloc: Global,
    source: &mut S,
    name: &str,
    reader: R,
) -> Result<R::Whole, Stop>
    ensures kept { S.holds source.new ≡ S.holds source.old }
    ensures steady { S.may_fail source.new ≡ S.may_fail source.old }
    ensures says { (bytes : List ℕ) → S.holds source.old name.now ≡ Some bytes → R.stands reader [] → IfOk result (R.says bytes) }
    ensures refused { (bytes : List ℕ) → S.holds source.old name.now ≡ Some bytes → R.stands reader []
        → IfErr result (EndsReading (S.may_fail source.old name.now) bytes (R.refuses bytes)) }
{
    let mut piece = vec![in alloc; 0u8; PIECE]?;
    let mut reader = reader;
    let mut at = 0u64;
    'pieces: for _ in 0..u64::MAX {
        let read = match source.piece(name, at, &mut piece) {
            Ok(read) => read,
            Err(fault) => return Err(reader.stop(Stop::from(fault))),
        };
        if read == 0 {
            return reader.finish();
        }
        reader = reader.feed(&piece[..read])?;
        let Some(next) = at.checked_add(read as u64) else {
            return Err(Stop::Read);
        };
        at = next;
    }
    Err(Stop::Read)
}
