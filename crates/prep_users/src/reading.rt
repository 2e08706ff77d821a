//! The users of a configuration.

ghost use Rattle.std.specs.Prelude.{◌≡◌, ◌++◌, ◌⊎◌, ℕ, [], IfErr, IfOk, OnOk, List, Option, None, Some, map, option_map};
ghost use Rattle.prep_coturn.specs.declared.rows.Row.{Row};
ghost use Rattle.prep_coturn.specs.Rows.{now_of, settings_of};
ghost use Rattle.prep_users.specs.declared.fault.UsersFault.TheVariants.{Configured, NoRealm};
ghost use Rattle.prep_users.specs.declared.fault.ConfiguredFault.TheVariants.{Memory};
ghost use Rattle.prep_users.specs.Wanting.{secrets_of, secrets_at, realm_for, AreJudged, AreUsersHere, IsOf, IsRefused, IsWanted, RefusesIn};

use crate::account::Account;
use crate::claim::Secret;
use crate::configured::accounts_in;
use crate::fault::UsersFault;
use crate::settings::{NoUsers, first_database, last_value, switched_on};
use audit_model::Listed;
use prep_coturn::{Row, rows_of};
use std::alloc::{AllocError, Global};

/// The users that are wanted.
#[derive(Debug, Drop)]
pub enum Wanted {
    /// Those that the configuration names.
    Named(Vec<Account>),
    /// Those of the realm whose requests are signed with the password that is derived from the name
    /// and one of the secrets.
    Signed {
        secrets: Vec<Secret>,
        realm: Listed<u8>,
    },
}

/// Adds the secret of a line, if it has one.
fn push_secret(alloc: Global, secrets: &mut Vec<Secret>, row: &Row<'_>) -> Result<(), AllocError>
    ensures { OnOk result (secrets.new.items ≡ secrets.old.items ++ secrets_at row.now) }
{
    if row.name == b"static-auth-secret".as_slice() {
        let bytes = Listed::from(Vec::from_slice(alloc, row.value)?);
        secrets.push(Secret { bytes })?;
    }
    Ok(())
}

/// The secrets of a configuration.
fn secrets_in(alloc: Global, rows: &[Row<'_>]) -> Result<Vec<Secret>, AllocError>
    ensures { IfOk result (λ secrets. secrets.items ≡ secrets_of rows.now) }
{
    let mut secrets = Vec::new(alloc);
    for row in rows {
        push_secret(alloc, &mut secrets, row)?;
    }
    Ok(secrets)
}

/// Refuses settings without users to judge by.
fn check_users(rows: &[Row<'_>]) -> Result<(), UsersFault>
    ensures judged { OnOk result (AreJudged rows.now) }
    ensures refused { IfErr result (λ fault. (said : Option (List ℕ)) → IsRefused rows.now said fault) }
{
    for setting in [NoUsers::NoAuth, NoUsers::Oauth] {
        if let Some(line) = switched_on(rows, setting.name().as_bytes()) {
            return Err(UsersFault::NoUsers { line, setting });
        }
    }
    Ok(())
}

/// The realm of the option, or else of the configuration.
fn realm_in<'a>(rows: &[Row<'a>], said: Option<&'a [u8]>) -> Result<&'a [u8], UsersFault>
    ensures found { IfOk result (λ realm. realm_for (option_map (λ said. said.now) said.entry) rows.now ≡ Some realm.now) }
    ensures refused { IfErr result (λ fault. (fault ≡ NoRealm) × (realm_for (option_map (λ said. said.now) said.entry) rows.now ≡ None)) }
{
    if let Some(realm) = said {
        return Ok(realm);
    }
    match last_value(rows, b"realm") {
        Some(realm) => Ok(realm),
        None => Err(UsersFault::NoRealm),
    }
}

/// Refuses lines with users in a database.
fn check_databases(rows: &[Row<'_>]) -> Result<(), UsersFault>
    ensures here { OnOk result (AreUsersHere rows.now) }
    ensures refused { IfErr result (λ fault. (realm : List ℕ) → secrets_of rows.now ≡ [] → RefusesIn rows.now realm fault) }
{
    if let Some((line, setting)) = first_database(rows) {
        return Err(UsersFault::Database { line, setting });
    }
    if let Some(line) = switched_on(rows, b"use-auth-secret") {
        return Err(UsersFault::SecretInDatabase { line });
    }
    Ok(())
}

/// The users of a configuration's lines: those that they name, or those of their secrets.
fn wanted_in(alloc: Global, rows: &[Row<'_>], realm: &[u8]) -> Result<Wanted, UsersFault>
    ensures wanted { IfOk result (IsOf rows.now realm.now) }
    ensures refused { IfErr result (RefusesIn rows.now realm.now) }
{
    let secrets = secrets_in(alloc, rows)?;
    if !secrets.is_empty() {
        let realm = Listed::from(Vec::from_slice(alloc, realm)?);
        return Ok(Wanted::Signed { secrets, realm });
    }
    check_databases(rows)?;
    let accounts = accounts_in(alloc, rows, realm)?;
    if accounts.is_empty() {
        return Err(UsersFault::Nobody);
    }
    Ok(Wanted::Named(accounts))
}

/// The users of a configuration, in the realm of the option or else of the configuration.
pub fn wanted_of(alloc: Global, text: &[u8], realm: Option<&[u8]>) -> Result<Wanted, UsersFault>
    ensures wanted { IfOk result (λ wanted. (rows : List Row) × (map now_of rows ≡ settings_of text.now) × IsWanted rows (option_map (λ said. said.now) realm.entry) wanted) }
    ensures refused { IfErr result (λ fault. (fault ≡ Configured Memory) ⊎ ((rows : List Row) × (map now_of rows ≡ settings_of text.now) × IsRefused rows (option_map (λ said. said.now) realm.entry) fault)) }
{
    let rows = rows_of(alloc, text)?;
    check_users(&rows)?;
    let realm = realm_in(&rows, realm)?;
    wanted_in(alloc, &rows, realm)
}
