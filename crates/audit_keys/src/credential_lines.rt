//! Adds the lines of a credentials text.

ghost use Rattle.std.specs.Prelude.{◌≡◌, ◌≤◌, []};
ghost use Rattle.audit_keys.specs.declared.credential_line.TheConstants.{MAX_LINES};

use crate::cred_fault::CredFaultKind;
use crate::credential_line::{MAX_LINES, are_characters, read_line};
use crate::keyring::Credentials;
use audit_text::Lines;
use std::alloc::Global;

/// The users of the lines so far.
#[derive(Drop)]
pub struct CredentialLines {
    credentials: Credentials,
    /// The number of lines.
    count: u64,
    alloc: Global,
    ghost few: { count ≤ MAX_LINES },
}

impl CredentialLines {
    ghost use Rattle.audit_keys.specs.CredentialLines.{Says};

    /// No line yet. Allocates no memory.
    pub(crate) fn new(alloc: Global) -> CredentialLines
        ensures { Says result [] }
    {
        CredentialLines {
            credentials: Credentials::new(alloc),
            count: 0,
            alloc,
        }
    }

    /// The users of the lines.
    pub(crate) fn into_credentials(self) -> Credentials
        ensures { result ≡ self.credentials }
    {
        self.credentials
    }
}

impl Lines for CredentialLines {
    ghost use Rattle.std.specs.Prelude.{List};
    ghost use Rattle.audit_keys.specs.CredFault.{is_memory};
    ghost use Rattle.audit_keys.specs.CredLine.{LongTermCredential as Line};
    ghost use Rattle.audit_keys.specs.CredText.{after, unended, overlong, lacks};
    ghost use Rattle.audit_keys.specs.CredentialLines.{Says};

    type Kind = CredFaultKind;

    ghost said = { List Line };

    ghost says = { Says };

    ghost after = { after };

    ghost unended = { unended };

    ghost overlong = { overlong };

    ghost lacks = { lacks };

    ghost is_memory = { is_memory };

    fn take_line(&mut self, line: &[u8]) -> Result<(), CredFaultKind> {
        let number = self.count + 1;
        let credential = read_line(number, line)?;
        if self
            .credentials
            .lookup(credential.user, credential.realm)
            .is_some()
        {
            return Err(CredFaultKind::Double);
        }
        self.credentials.insert(self.alloc, credential)?;
        self.count = number;
        Ok(())
    }

    fn unended(&self, rest: &[u8]) -> CredFaultKind {
        if are_characters(rest) {
            CredFaultKind::Line
        } else {
            CredFaultKind::Character
        }
    }

    fn overlong(&self) -> CredFaultKind {
        CredFaultKind::Line
    }

    fn lacks(&self) -> Option<CredFaultKind> {
        None
    }

    fn no_memory() -> CredFaultKind {
        CredFaultKind::Memory
    }
}
