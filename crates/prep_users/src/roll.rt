//! Users whose requests are signed.

ghost use Rattle.std.specs.Prelude.{◌≡◌, ◌++◌, ◌∷◌, [], ℕ, List, OnOk, IfOk, IfSome};

use crate::account::Account;
use crate::claim::{Claim, Secret};
use crate::lines::is_field;
use crate::standings::Standings;
use audit_model::Listed;
use std::alloc::{AllocError, Global};

/// The users whose requests are signed with passwords derived from their names and the secrets,
/// each once.
#[derive(Drop)]
pub struct Roll {
    secrets: Listed<Secret>,
    /// The realm of the users; `None` if the users of all realms are wanted.
    realm: Option<Listed<u8>>,
    accounts: Listed<Account>,
    standings: Standings,
    alloc: Global,
}

impl Roll {
    ghost use Rattle.prep_users.specs.Rolls.{AreProved};

    /// No users yet. It takes no memory.
    pub fn new(alloc: Global, secrets: Listed<Secret>, realm: Option<Listed<u8>>) -> Self
        ensures secrets { result.secrets ≡ secrets }
        ensures none { result.accounts ≡ [] }
    {
        Roll {
            secrets,
            realm,
            accounts: Listed::new(alloc),
            standings: Standings::new(alloc),
            alloc,
        }
    }

    /// The users, in the order of their first signed requests.
    pub fn accounts(&self) -> &[Account]
        ensures { result.now ≡ self.now.accounts }
    {
        self.accounts.as_slice()
    }

    /// A line for each user that is excluded. It is for people.
    pub fn notes(&self) -> Result<String, AllocError> {
        self.standings.notes()
    }

    /// Reads the next payload, and adds a user whose first signed request it is. The cost is two
    /// HMACs for each secret, and n log n in the names.
    pub fn take(&mut self, payload: &[u8]) -> Result<(), AllocError>
        ensures secrets { self.new.secrets ≡ self.old.secrets }
        ensures proved { (payloads : List (List ℕ)) → AreProved self.old.secrets self.old.accounts payloads →
            OnOk result (AreProved self.old.secrets self.new.accounts (payloads ++ payload.now ∷ [])) }
    {
        let Some(claim) = Claim::of(payload) else {
            return Ok(());
        };
        if !self.wants(claim.realm) {
            return Ok(());
        }
        if self.standings.is_settled(claim.user, claim.realm)? {
            return Ok(());
        }
        let Some(account) = claim.proved(self.alloc, self.secrets.as_slice())? else {
            return Ok(());
        };
        let can_stand = is_field(claim.user) && is_field(claim.realm);
        self.standings.settle(claim.user, claim.realm, can_stand)?;
        if can_stand {
            self.accounts.push(account)?;
        }
        Ok(())
    }

    /// Whether the users of this realm are wanted.
    fn wants(&self, realm: &[u8]) -> bool {
        match &self.realm {
            Some(wanted) => wanted.as_slice() == realm,
            None => true,
        }
    }
}
