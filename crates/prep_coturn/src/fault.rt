//! Why no policy can be made from a configuration.

ghost use Rattle.std.specs.Prelude.{◌≡◌};
ghost use Rattle.prep_coturn.specs.declared.fault.ConfFault.TheVariants.{Memory};

use crate::conf::Renamed;
use crate::setting::{Setting, Unjudged};
use audit_model::Listed;
use std::alloc::{AllocError, AllocFailed};
use std::fmt;

/// The fault of a configuration, or the setting that it lacks.
#[derive(Debug, Drop)]
pub enum ConfFault {
    /// With this setting nothing could conform, or nothing would be judged.
    Unjudged { line: u64, setting: Unjudged },
    /// The value of a setting isn't an address or a port.
    Value { line: u64, setting: Setting },
    /// An `external-ip` names no relay address, and there are more than one, or none.
    OneForMany { line: u64, relaying: usize },
    /// No `listening-ip`.
    NoListening,
    /// No `relay-ip`; the listening addresses.
    NoRelaying { listening: Listed<u32> },
    /// Clients are granted another address for a relay address.
    NotTranslated { line: u64, renamed: Listed<Renamed> },
    /// `min-port` is greater than `max-port`, or 0.
    Range,
    /// A listening port is inside the relay range.
    Inside,
    /// Out of memory.
    Memory,
}

impl From<AllocError> for ConfFault {
    ghost from_gives = { λ _ fault. fault ≡ Memory };

    fn from(_error: AllocError) -> ConfFault {
        ConfFault::Memory
    }
}

impl<T: Drop> From<AllocFailed<T>> for ConfFault {
    ghost from_gives = { λ _ fault. fault ≡ Memory };

    fn from(_failed: AllocFailed<T>) -> ConfFault {
        ConfFault::Memory
    }
}

/// An IPv4 address without a port.
#[derive(Drop)]
struct Ip(u32);

impl fmt::Display for Ip {
    fn fmt<W: fmt::Write>(&self, f: &mut fmt::Formatter<W>) -> fmt::Result {
        let [a, b, c, d] = self.0.to_be_bytes();
        write!(f, "{a}.{b}.{c}.{d}")
    }
}

/// What a setting's value should be.
fn lacks(setting: Setting) -> &'static str {
    match setting {
        Setting::ListeningIp | Setting::RelayIp => "not an address",
        Setting::AuxServer => "not an address and a port",
        Setting::ExternalIp => "not IPv4",
        _ => "not a port",
    }
}

/// Writes the options that name the relay addresses.
fn write_relaying<W: fmt::Write>(
    f: &mut fmt::Formatter<W>,
    listening: &Listed<u32>,
) -> fmt::Result {
    f.write_str(
        "turnserver-conf: no relay-ip: coturn relays from the address at which the client came: say",
    )?;
    for ip in listening.as_slice() {
        let ip = Ip(*ip);
        write!(f, " --relay-ip {ip}")?;
    }
    Ok(())
}

/// Writes the options for translation.
fn write_not_translated<W: fmt::Write>(
    f: &mut fmt::Formatter<W>,
    line: u64,
    renamed: &Listed<Renamed>,
) -> fmt::Result {
    write!(
        f,
        "turnserver-conf line {line} external-ip: the told address is not the one on the wire (R14): say --translated, and pass the captures through translate"
    )?;
    for one in renamed.as_slice() {
        let public = Ip(one.public);
        let wire = Ip(one.wire);
        write!(f, " --external-ip {public}/{wire}")?;
    }
    Ok(())
}

/// The text for standard error.
impl fmt::Display for ConfFault {
    fn fmt<W: fmt::Write>(&self, f: &mut fmt::Formatter<W>) -> fmt::Result {
        match self {
            ConfFault::Unjudged { line, setting } => {
                let name = setting.name();
                let why = setting.why();
                write!(f, "turnserver-conf line {line} {name}: {why}")
            }
            ConfFault::Value { line, setting } => {
                let name = setting.name();
                let lacking = lacks(*setting);
                write!(f, "turnserver-conf line {line} {name}: {lacking}")
            }
            ConfFault::OneForMany { line, relaying } => write!(
                f,
                "turnserver-conf line {line} external-ip: one address for {relaying} relay addresses"
            ),
            ConfFault::NoListening => f.write_str(
                "turnserver-conf: no listening-ip: coturn takes all addresses of its host: say each by --listening-ip",
            ),
            ConfFault::NoRelaying { listening } => write_relaying(f, listening),
            ConfFault::NotTranslated { line, renamed } => write_not_translated(f, *line, renamed),
            ConfFault::Range => f.write_str("turnserver-conf: min-port over max-port"),
            ConfFault::Inside => {
                f.write_str("turnserver-conf: a listening port is inside the relay range")
            }
            ConfFault::Memory => f.write_str("out of memory"),
        }
    }
}
