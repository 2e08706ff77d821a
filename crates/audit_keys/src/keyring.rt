//! The keys of users.

ghost use Rattle.std.specs.Prelude.{◌≡◌, ℕ, List, [], if◌then◌else◌, None, Some, IfErr, OnOk, MatchResult, Ok};
ghost use Rattle.audit_keys.specs.declared.cred_fault.CredFaultKind.TheVariants.{Memory};
ghost use Rattle.audit_keys.specs.Keys.{is_of, keys_of_credential};
ghost use Rattle.audit_keys.specs.KeyFor.{key_for};
ghost use Rattle.audit_keys.specs.Seen.{seen};

use crate::cred_fault::CredFaultKind;
use crate::credential_line::LongTermCredential;
use crate::keys::Keys;
use crate::long_term::{long_term_key, long_term_key_sha256};
use std::alloc::Global;
use std::collections::BTreeMap;
use std::fmt;

/// The users of a server, each with the long-term keys of its realm. Contracts see it by `key_for`.
#[derive(Drop)]
pub struct Credentials {
    /// By realm, and then by user.
    realms: BTreeMap<Vec<u8>, BTreeMap<Vec<u8>, Keys>>,
}

/// The keys of the credential's user.
fn keys_of(credential: &LongTermCredential<'_>) -> Keys
    ensures { result ≡ keys_of_credential (seen credential.now) }
{
    let (user, realm, password) = (credential.user, credential.realm, credential.password);
    Keys {
        md5: long_term_key(user, realm, password),
        sha256: long_term_key_sha256(user, realm, password),
    }
}

impl Credentials {
    /// No users. Allocates no memory.
    #[tactic(auto, unfolding(crate::specs::KeyFor::key_for))]
    pub(crate) fn new(alloc: Global) -> Self
        ensures { (user realm : List ℕ) → key_for result user realm ≡ None }
    {
        Credentials {
            realms: BTreeMap::new(alloc),
        }
    }

    /// The long-term keys of the user of that realm. Allocates no memory.
    #[tactic(auto, unfolding(crate::specs::KeyFor::key_for))]
    pub fn lookup(&self, user: &[u8], realm: &[u8]) -> Option<Keys>
        ensures { result ≡ key_for self.now user.now realm.now }
    {
        let users = self.realms.get(realm)?;
        users.get(user).copied()
    }

    /// Adds the credential's user with its keys.
    #[tactic(auto, unfolding(crate::specs::KeyFor::key_for))]
    pub(crate) fn insert(
        &mut self,
        alloc: Global,
        credential: LongTermCredential<'_>,
    ) -> Result<(), CredFaultKind>
        ensures ok { OnOk result ((user realm : List ℕ) → key_for self.new user realm
            ≡ (if is_of user realm (seen credential.entry) then Some (keys_of_credential (seen credential.entry)) else key_for self.old user realm)) }
        ensures err { IfErr result (λ kind. kind ≡ Memory) }
    {
        let keys = keys_of(&credential);
        let user = Vec::from_slice(alloc, credential.user)?;
        if let Some(users) = self.realms.get_mut(credential.realm) {
            users.insert(user, keys)?;
            return Ok(());
        }
        let mut users = BTreeMap::new(alloc);
        users.insert(user, keys)?;
        let realm = Vec::from_slice(alloc, credential.realm)?;
        self.realms.insert(realm, users)?;
        Ok(())
    }
}

/// Prints no key.
impl fmt::Debug for Credentials {
    fn fmt<W: fmt::Write>(&self, f: &mut fmt::Formatter<W>) -> fmt::Result {
        f.write_str("Credentials { .. }")
    }
}
