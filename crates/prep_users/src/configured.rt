//! The users that a configuration names.

ghost use Rattle.std.specs.Prelude.{◌≡◌, ◌++◌, ◌⊎◌, Any, IfErr, IfOk, OnOk};
ghost use Rattle.std.specs.List.{flat_map};
ghost use Rattle.prep_users.specs.Configured.{accounts_of, Refuses};
ghost use Rattle.prep_users.specs.declared.fault.ConfiguredFault.TheVariants.{Memory};

use crate::account::Account;
use crate::fault::ConfiguredFault;
use crate::lines::{is_field, is_password};
use audit_model::Listed;
use audit_text::cut;
use prep_coturn::Row;
use std::alloc::Global;

/// The start of a user's value that has a key instead of a password.
const HASHED: &[u8] = b"0x";

/// The users of the lines, in this realm, in order. The cost is the size of the lines.
pub fn accounts_in(
    alloc: Global,
    rows: &[Row<'_>],
    realm: &[u8],
) -> Result<Vec<Account>, ConfiguredFault>
    ensures all { IfOk result (λ accounts. accounts.items ≡ flat_map (accounts_of realm.now) rows.now) }
    ensures refused { IfErr result (λ fault. fault ≡ Memory ⊎ Any (Refuses fault realm.now) rows.now) }
{
    let mut accounts = Vec::new(alloc);
    for row in rows {
        push_user(alloc, &mut accounts, row, realm)?;
    }
    Ok(accounts)
}

/// Adds the user of a line, if it names one.
fn push_user(
    alloc: Global,
    accounts: &mut Vec<Account>,
    row: &Row<'_>,
    realm: &[u8],
) -> Result<(), ConfiguredFault>
    ensures added { OnOk result (accounts.new.items ≡ accounts.old.items ++ accounts_of realm.now row.now) }
    ensures refused { IfErr result (λ fault. fault ≡ Memory ⊎ Refuses fault realm.now row.now) }
{
    if row.name != b"user".as_slice() {
        return Ok(());
    }
    let line = row.line;
    let Some((name, password)) = cut(row.value, b':') else {
        return Err(ConfiguredFault::NoColon { line });
    };
    if name.is_empty() {
        return Err(ConfiguredFault::NoColon { line });
    }
    if !is_field(name) || !is_field(realm) {
        return Err(ConfiguredFault::NotPrintable { line });
    }
    if password.starts_with(HASHED) {
        let name = Listed::from(Vec::from_slice(alloc, name)?);
        return Err(ConfiguredFault::Hashed { line, name });
    }
    if !is_password(password) {
        return Err(ConfiguredFault::NotPrintable { line });
    }
    accounts.push(Account::new(alloc, name, realm, password)?)?;
    Ok(())
}
