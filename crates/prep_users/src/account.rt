//! A user with its password.

ghost use Rattle.std.specs.Prelude.{◌≡◌, IfOk};

use audit_model::Listed;
use std::alloc::{AllocError, Global};

/// A user of a realm, with its password.
#[derive(Debug, Drop)]
pub struct Account {
    pub user: Listed<u8>,
    pub realm: Listed<u8>,
    pub password: Listed<u8>,
}

impl Account {
    ghost use Rattle.prep_users.specs.Accounts.{account_at};

    /// The user with copies of these bytes.
    pub fn new(
        alloc: Global,
        user: &[u8],
        realm: &[u8],
        password: &[u8],
    ) -> Result<Account, AllocError>
        ensures { IfOk result (λ account. account ≡ account_at user.now realm.now password.now) }
    {
        Ok(Account {
            user: Listed::from(Vec::from_slice(alloc, user)?),
            realm: Listed::from(Vec::from_slice(alloc, realm)?),
            password: Listed::from(Vec::from_slice(alloc, password)?),
        })
    }
}
