//! Keys, and signatures under them: HMAC-SHA1 and HMAC-SHA256 (RFC 2104), the long-term keys of
//! STUN (RFC 8489, section 9.2.2) and the credentials file.
#![tactic(auto)]

mod cred_fault;
mod credential_line;
mod credential_lines;
mod hmac;
mod integrity;
mod keyring;
mod keys;
pub mod laws;
mod long_term;
mod reading;

pub use cred_fault::{CredFault, CredFaultKind};
pub use hmac::{hmac_sha1, hmac_sha256};
pub use integrity::signed;
pub use keyring::Credentials;
pub use keys::Keys;
pub use long_term::{long_term_key, long_term_key_sha256};
pub use reading::CredentialsReader;
