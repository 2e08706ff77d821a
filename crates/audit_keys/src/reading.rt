//! Reads a credentials text.

ghost use Rattle.std.specs.Prelude.{◌≡◌, ◌++◌, [], ℕ, List, IfOk, IfErr, MatchResult, Err};
ghost use Rattle.audit_text.specs.Reading.{UnlessMemory};
ghost use Rattle.audit_text.specs.Readers.{Took};
ghost use Rattle.audit_keys.specs.CredFault.{is_memory};
ghost use Rattle.audit_keys.specs.CredText.{credentials_of};
ghost use Rattle.audit_keys.specs.KeyFor.{HasKeysOf};

use crate::cred_fault::CredFault;
use crate::credential_lines::CredentialLines;
use crate::keyring::Credentials;
use audit_text::TextReader;
use std::alloc::Global;

/// Reads a credentials text that comes in pieces, split anywhere.
#[derive(Drop)]
pub struct CredentialsReader {
    reader: TextReader<CredentialLines>,
}

impl CredentialsReader {
    ghost use Rattle.audit_keys.specs.CredentialsReader.{StandsFor};

    /// A reader of no bytes. Allocates no memory.
    pub fn new(alloc: Global) -> CredentialsReader
        ensures { StandsFor result [] }
    {
        CredentialsReader {
            reader: TextReader::new(alloc, CredentialLines::new(alloc)),
        }
    }

    #[tactic(auto, unfolding(crate::specs::CredText::credentials_of))]
    /// Reads the next piece of the text, or returns the first fault of the text so far. Every text
    /// that continues these bytes has the same fault, however it is split. After a fault the reader
    /// is consumed.
    pub fn feed(self, piece: &[u8]) -> Result<CredentialsReader, CredFault>
        ensures ok { (text : List ℕ) → StandsFor self text → IfOk result (λ fed. StandsFor fed (text ++ piece.now)) }
        ensures err { (text : List ℕ) → StandsFor self text → (more : List ℕ) →
            IfErr result (λ fault. UnlessMemory (λ f. is_memory f.kind) fault (credentials_of (text ++ piece.now ++ more))) }
    {
        Ok(CredentialsReader {
            reader: self.reader.feed(piece)?,
        })
    }

    #[tactic(auto, unfolding(crate::specs::CredText::credentials_of))]
    /// The users of the text that ends here, or its first fault. Allocates no memory.
    pub fn finish(self) -> Result<Credentials, CredFault>
        ensures { (text : List ℕ) → StandsFor self text → MatchResult result (λ credentials. Took HasKeysOf (credentials_of text) credentials)
            (λ fault. credentials_of text ≡ Err fault) }
    {
        match self.reader.finish() {
            Ok(lines) => Ok(lines.into_credentials()),
            Err(fault) => Err(fault),
        }
    }
}

impl Credentials {
    /// The users of a credentials text, or its first fault: the kind, and the line from 1. Each
    /// line is user, TAB, realm, TAB, password and LF, in printable ASCII. User and realm are not
    /// empty; a field has at most 508 bytes, and there are at most 65,536 lines. No two have one
    /// user and realm. An empty text has no users. It takes n log n time in the lines.
    pub fn read(alloc: Global, text: &[u8]) -> Result<Credentials, CredFault>
        ensures { MatchResult result (λ credentials. Took HasKeysOf (credentials_of text.now) credentials)
            (λ fault. UnlessMemory (λ f. is_memory f.kind) fault (credentials_of text.now)) }
    {
        CredentialsReader::new(alloc).feed(text)?.finish()
    }
}
