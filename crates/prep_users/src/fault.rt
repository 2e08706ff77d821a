//! Why no users are written.

ghost use Rattle.std.specs.Prelude.{◌≡◌};
ghost use Rattle.prep_users.specs.declared.fault.ConfiguredFault.TheVariants.{Memory};
ghost use Rattle.prep_users.specs.declared.fault.UsersFault.TheVariants.{Configured};

use crate::settings::{Database, NoUsers};
use crate::shown::Shown;
use audit_model::Listed;
use std::alloc::{AllocError, AllocFailed};
use std::fmt;

/// The fault of a line that names a user.
#[derive(Debug, Drop)]
pub enum ConfiguredFault {
    /// It has no name before a colon.
    NoColon { line: u64 },
    /// It has a key instead of a password; the name, which is printable.
    Hashed { line: u64, name: Listed<u8> },
    /// A credentials text can't have the name, the realm or the password.
    NotPrintable { line: u64 },
    /// Out of memory.
    Memory,
}

impl From<AllocError> for ConfiguredFault {
    ghost from_gives = { λ _ e. e ≡ Memory };

    fn from(_error: AllocError) -> ConfiguredFault {
        ConfiguredFault::Memory
    }
}

impl<T: Drop> From<AllocFailed<T>> for ConfiguredFault {
    ghost from_gives = { λ _ e. e ≡ Memory };

    fn from(_failed: AllocFailed<T>) -> ConfiguredFault {
        ConfiguredFault::Memory
    }
}

/// Why a configuration has no users.
#[derive(Debug, Drop)]
pub enum UsersFault {
    /// With this setting there are no users to judge by.
    NoUsers { line: u64, setting: NoUsers },
    /// No realm.
    NoRealm,
    /// The users are in a database.
    Database { line: u64, setting: Database },
    /// The secret is in a database.
    SecretInDatabase { line: u64 },
    /// The fault of a user's line.
    Configured(ConfiguredFault),
    /// No user at all.
    Nobody,
}

impl From<ConfiguredFault> for UsersFault {
    ghost from_gives = { λ fault e. e ≡ Configured fault };

    fn from(fault: ConfiguredFault) -> UsersFault {
        UsersFault::Configured(fault)
    }
}

impl From<AllocError> for UsersFault {
    ghost from_gives = { λ _ e. e ≡ Configured Memory };

    fn from(_error: AllocError) -> UsersFault {
        UsersFault::Configured(ConfiguredFault::Memory)
    }
}

impl<T: Drop> From<AllocFailed<T>> for UsersFault {
    ghost from_gives = { λ _ e. e ≡ Configured Memory };

    fn from(_failed: AllocFailed<T>) -> UsersFault {
        UsersFault::Configured(ConfiguredFault::Memory)
    }
}

/// The text for standard error.
impl fmt::Display for ConfiguredFault {
    fn fmt<W: fmt::Write>(&self, f: &mut fmt::Formatter<W>) -> fmt::Result {
        match self {
            ConfiguredFault::NoColon { line } => {
                write!(f, "turnserver-conf line {line} user: no colon")
            }
            ConfiguredFault::Hashed { line, name } => {
                let name = Shown(name.as_slice());
                write!(
                    f,
                    "turnserver-conf line {line} user {name}: a hashed key can't be used: write the password"
                )
            }
            ConfiguredFault::NotPrintable { line } => {
                write!(f, "turnserver-conf line {line} user: not printable ASCII")
            }
            ConfiguredFault::Memory => f.write_str("out of memory"),
        }
    }
}

/// The text for standard error.
impl fmt::Display for UsersFault {
    fn fmt<W: fmt::Write>(&self, f: &mut fmt::Formatter<W>) -> fmt::Result {
        match self {
            UsersFault::NoUsers { line, setting } => {
                let name = setting.name();
                let why = setting.why();
                write!(f, "turnserver-conf line {line} {name}: {why}")
            }
            UsersFault::NoRealm => f.write_str(
                "turnserver-conf: no realm: coturn takes the domain name of its host: say it by --realm",
            ),
            UsersFault::Database { line, setting } => {
                let name = setting.name();
                write!(
                    f,
                    "turnserver-conf line {line} {name}: users are in a database, which has keys and no passwords"
                )
            }
            UsersFault::SecretInDatabase { line } => write!(
                f,
                "turnserver-conf line {line} use-auth-secret: the secret is in a database: say --secret-file"
            ),
            UsersFault::Configured(fault) => write!(f, "{fault}"),
            UsersFault::Nobody => f.write_str(
                "turnserver-conf: no user: coturn without users asks for no credentials (R2)",
            ),
        }
    }
}
