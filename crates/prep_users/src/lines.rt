//! Users as lines of a credentials text.

ghost use Rattle.std.specs.Prelude.{◌≡◌, ◌++◌, IfOk, OnOk};
ghost use Rattle.std.specs.List.{flat_map, list_all};
ghost use Rattle.prep_users.specs.Accounts.{line_of, is_field, is_password, is_printable};

use crate::account::Account;
use std::alloc::{AllocError, Global};

/// The most bytes of a field of a line.
const MAX_FIELD: usize = 508;

/// Whether these bytes may be a user or a realm in a credentials text: 1 to 508 characters of
/// printable ASCII.
pub fn is_field(bytes: &[u8]) -> bool
    ensures { result ≡ is_field bytes.now }
{
    !bytes.is_empty() && is_password(bytes)
}

/// Whether they may be a password, which may be empty.
pub fn is_password(bytes: &[u8]) -> bool
    ensures { result ≡ is_password bytes.now }
{
    bytes.len() <= MAX_FIELD && are_printable(bytes)
}

/// Whether each byte is printable ASCII.
fn are_printable(bytes: &[u8]) -> bool
    ensures { result ≡ list_all is_printable bytes.now }
{
    bytes.iter().all(|byte| 0x20 <= *byte && *byte <= 0x7E)
}

/// Adds the line of a user: its name, a TAB, its realm, a TAB, its password.
fn push_line(text: &mut Vec<u8>, account: &Account) -> Result<(), AllocError>
    ensures { OnOk result (text.new.items ≡ text.old.items ++ line_of account.now) }
{
    text.extend_from_slice(account.user.as_slice())?;
    text.push(b'\t')?;
    text.extend_from_slice(account.realm.as_slice())?;
    text.push(b'\t')?;
    text.extend_from_slice(account.password.as_slice())?;
    text.push(b'\n')?;
    Ok(())
}

/// The lines of users, in order.
pub fn text_of(alloc: Global, accounts: &[Account]) -> Result<Vec<u8>, AllocError>
    ensures { IfOk result (λ text. text.items ≡ flat_map line_of accounts.now) }
{
    let mut text = Vec::new(alloc);
    for account in accounts {
        push_line(&mut text, account)?;
    }
    Ok(text)
}
