//! The state of the users that requests name.

use crate::shown::Shown;
use std::alloc::{AllocError, Global};
use std::collections::BTreeMap;
use std::fmt::Write;

/// The state of a user.
#[derive(Clone, Copy, Debug, PartialEq, Eq)]
enum Standing {
    /// None of this number of requests is signed.
    Unsigned { requests: u64 },
    /// A request is signed.
    Signed,
    /// A request is signed, but a credentials text can't have the name or the realm.
    NotPrintable,
}

/// The state of all users that requests name. It is for notes to people.
#[derive(Drop)]
pub struct Standings {
    /// By realm, and then by user.
    realms: BTreeMap<Vec<u8>, BTreeMap<Vec<u8>, Standing>>,
    alloc: Global,
}

impl Standings {
    /// No users. It takes no memory.
    pub fn new(alloc: Global) -> Self {
        Standings {
            realms: BTreeMap::new(alloc),
            alloc,
        }
    }

    /// Whether a request of this user was signed. If none was, it counts one more.
    pub fn is_settled(&mut self, user: &[u8], realm: &[u8]) -> Result<bool, AllocError> {
        let known = match self.realms.get(realm) {
            Some(users) => users.get(user).copied(),
            None => None,
        };
        match known {
            Some(Standing::Signed | Standing::NotPrintable) => Ok(true),
            Some(Standing::Unsigned { requests }) => {
                let requests = requests.saturating_add(1);
                self.put(user, realm, Standing::Unsigned { requests })?;
                Ok(false)
            }
            None => {
                self.put(user, realm, Standing::Unsigned { requests: 1 })?;
                Ok(false)
            }
        }
    }

    /// Records that a request of this user is signed.
    pub fn settle(&mut self, user: &[u8], realm: &[u8], can_stand: bool) -> Result<(), AllocError> {
        let standing = if can_stand {
            Standing::Signed
        } else {
            Standing::NotPrintable
        };
        self.put(user, realm, standing)
    }

    fn put(&mut self, user: &[u8], realm: &[u8], standing: Standing) -> Result<(), AllocError> {
        let user = Vec::from_slice(self.alloc, user)?;
        if let Some(users) = self.realms.get_mut(realm) {
            users.insert(user, standing)?;
            return Ok(());
        }
        let mut users = BTreeMap::new(self.alloc);
        users.insert(user, standing)?;
        let realm = Vec::from_slice(self.alloc, realm)?;
        self.realms.insert(realm, users)?;
        Ok(())
    }

    /// A line for each user that is excluded.
    pub fn notes(&self) -> Result<String, AllocError> {
        let mut notes = String::new(self.alloc);
        for (realm, users) in &self.realms {
            for (user, standing) in users {
                note(&mut notes, user, realm, *standing)?;
            }
        }
        Ok(notes)
    }
}

/// Adds the note about a user.
fn note(
    notes: &mut String,
    user: &[u8],
    realm: &[u8],
    standing: Standing,
) -> Result<(), AllocError> {
    let user = Shown(user);
    let realm = Shown(realm);
    match standing {
        Standing::Signed => Ok(()),
        Standing::Unsigned { requests } => write!(
            notes,
            "turnprep: note: user '{user}' realm '{realm}': none of {requests} requests is signed by the secret: left out, so that its successes are R2\n"
        ),
        Standing::NotPrintable => write!(
            notes,
            "turnprep: note: user '{user}': not printable ASCII\n"
        ),
    }
}
