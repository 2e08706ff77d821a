//! Parses one line of a credentials text.

ghost use Rattle.std.specs.Prelude.{◌≡◌, ◌≤◌, OnOk, IfOk, MatchResult, option_map, Ok, Err};
ghost use Rattle.std.specs.List.{list_all};
ghost use Rattle.audit_keys.specs.CredLine.{credential_of, read_credential, may_stand};
ghost use Rattle.audit_keys.specs.Seen.{seen};

use crate::cred_fault::CredFaultKind;
use audit_text::cut;

const TAB: u8 = b'\t';

/// The most bytes of a user, a realm or a password.
const MAX_FIELD: usize = 508;

/// The most lines of a credentials text.
pub(crate) const MAX_LINES: u64 = 65_536;

/// The credential of a line.
#[derive(Clone, Copy)]
pub(crate) struct LongTermCredential<'a> {
    pub(crate) user: &'a [u8],
    pub(crate) realm: &'a [u8],
    pub(crate) password: &'a [u8],
}

/// Whether each byte is printable ASCII or a TAB.
pub(crate) fn are_characters(line: &[u8]) -> bool
    ensures { result ≡ list_all may_stand line.now }
{
    line.iter()
        .all(|byte| (0x20 <= *byte && *byte <= 0x7E) || *byte == TAB)
}

/// The fields of a line: user, TAB, realm, TAB, password. None if their number differs, or user or
/// realm is empty.
#[tactic(auto, unfolding(crate::specs::CredLine::credential_of))]
fn split_line(line: &[u8]) -> Option<LongTermCredential<'_>>
    ensures { option_map seen result ≡ credential_of line.now }
{
    let (user, rest) = cut(line, TAB)?;
    let (realm, password) = cut(rest, TAB)?;
    if user.is_empty() || realm.is_empty() || password.contains(&TAB) {
        return None;
    }
    Some(LongTermCredential {
        user,
        realm,
        password,
    })
}

/// The credential of the line of this number.
#[tactic(auto, unfolding(crate::specs::CredLine::read_credential))]
pub(crate) fn read_line(number: u64, line: &[u8]) -> Result<LongTermCredential<'_>, CredFaultKind>
    ensures exact { MatchResult result (λ credential. read_credential number line.now ≡ Ok (seen credential)) (λ kind. read_credential number line.now ≡ Err kind) }
    ensures within { OnOk result (number ≤ MAX_LINES) }
{
    if !are_characters(line) {
        return Err(CredFaultKind::Character);
    }
    let Some(credential) = split_line(line) else {
        return Err(CredFaultKind::Line);
    };
    let is_too_long = credential.user.len() > MAX_FIELD
        || credential.realm.len() > MAX_FIELD
        || credential.password.len() > MAX_FIELD;
    if is_too_long || number > MAX_LINES {
        return Err(CredFaultKind::Limit);
    }
    Ok(credential)
}
