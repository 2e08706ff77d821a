//! The settings of addresses and ports in a configuration.

ghost use Rattle.std.specs.Prelude.{◌≡◌};
ghost use Rattle.prep_coturn.specs.Confs.{nothing_said};

use crate::fault::ConfFault;
use crate::rows::Row;
use crate::setting::{Setting, Unjudged};
use audit_model::{Addr, Listed, read_ip, read_port};
use audit_text::cut;
use std::alloc::Global;

/// A relay address on the wire, and the one that clients are granted.
#[derive(Clone, Copy, Debug, PartialEq, Eq)]
pub struct Renamed {
    pub public: u32,
    pub wire: u32,
}

/// An `external-ip` line.
#[derive(Clone, Copy, Debug, PartialEq, Eq)]
pub struct External {
    pub line: u64,
    pub public: u32,
    /// The relay address that it is for; `None` if it is for the only one.
    pub wire: Option<u32>,
}

/// The settings of a configuration, with coturn's defaults. If a setting is repeated, the last one
/// counts.
#[derive(Debug, Drop)]
pub struct Conf {
    pub listening: Listed<u32>,
    pub relaying: Listed<u32>,
    pub external: Listed<External>,
    pub aux: Listed<Addr>,
    pub listening_port: u16,
    pub tls_port: u16,
    /// 0 if it isn't set: then the other port plus one.
    pub alt_port: u16,
    pub alt_tls_port: u16,
    pub min_port: u16,
    pub max_port: u16,
    pub has_cert: bool,
    pub has_key: bool,
    pub no_dtls: bool,
    pub no_rfc5780: bool,
    pub no_tcp: bool,
    pub no_tls: bool,
}

impl Conf {
    /// An empty configuration.
    pub fn new(alloc: Global) -> Self
        ensures { result ≡ nothing_said }
    {
        Conf {
            listening: Listed::new(alloc),
            relaying: Listed::new(alloc),
            external: Listed::new(alloc),
            aux: Listed::new(alloc),
            listening_port: 3478,
            tls_port: 5349,
            alt_port: 0,
            alt_tls_port: 0,
            min_port: 49152,
            max_port: 65535,
            has_cert: false,
            has_key: false,
            no_dtls: false,
            no_rfc5780: false,
            no_tcp: false,
            no_tls: false,
        }
    }

    /// Adds the setting of a line.
    pub fn take(&mut self, row: &Row<'_>) -> Result<(), ConfFault> {
        let Some(setting) = Setting::of(row.name) else {
            return Ok(());
        };
        match setting {
            Setting::ListeningIp => {
                if !row.value.contains(&b':') {
                    self.listening.push(ip_in(row, setting)?)?;
                }
            }
            Setting::RelayIp => {
                if !row.value.contains(&b':') {
                    self.relaying.push(ip_in(row, setting)?)?;
                }
            }
            Setting::ExternalIp => self.external.push(external_in(row)?)?,
            Setting::AuxServer => {
                if row.value.first() != Some(&b'[') {
                    self.aux.push(aux_in(row)?)?;
                }
            }
            _ => return self.take_other(row, setting),
        }
        Ok(())
    }

    /// Adds the setting of a port or a switch.
    fn take_other(&mut self, row: &Row<'_>, setting: Setting) -> Result<(), ConfFault> {
        match setting {
            Setting::ListeningPort => self.listening_port = port_in(row, setting)?,
            Setting::TlsPort => self.tls_port = port_in(row, setting)?,
            Setting::AltPort => self.alt_port = port_in(row, setting)?,
            Setting::AltTlsPort => self.alt_tls_port = port_in(row, setting)?,
            Setting::MinPort => self.min_port = port_in(row, setting)?,
            Setting::MaxPort => self.max_port = port_in(row, setting)?,
            Setting::Cert => self.has_cert = true,
            Setting::Key => self.has_key = true,
            Setting::NoDtls => self.no_dtls = row.is_on(),
            Setting::NoRfc5780 => self.no_rfc5780 = row.is_on(),
            Setting::NoTcp => self.no_tcp = row.is_on(),
            Setting::NoTls => self.no_tls = row.is_on(),
            _ => {}
        }
        Ok(())
    }
}

/// The address of a line.
fn ip_in(row: &Row<'_>, setting: Setting) -> Result<u32, ConfFault> {
    match read_ip(row.value) {
        Ok(ip) => Ok(ip),
        Err(_) => Err(ConfFault::Value {
            line: row.line,
            setting,
        }),
    }
}

/// The port of a line.
fn port_in(row: &Row<'_>, setting: Setting) -> Result<u16, ConfFault> {
    match read_port(row.value) {
        Ok(port) => Ok(port),
        Err(_) => Err(ConfFault::Value {
            line: row.line,
            setting,
        }),
    }
}

/// The address and port of a line.
fn aux_in(row: &Row<'_>) -> Result<Addr, ConfFault> {
    match Addr::read(row.value) {
        Ok(addr) if addr.port != 0 => Ok(addr),
        _ => Err(ConfFault::Value {
            line: row.line,
            setting: Setting::AuxServer,
        }),
    }
}

/// The addresses of an `external-ip` line.
fn external_in(row: &Row<'_>) -> Result<External, ConfFault> {
    let fault = ConfFault::Value {
        line: row.line,
        setting: Setting::ExternalIp,
    };
    let (public, wire) = match cut(row.value, b'/') {
        Some((public, wire)) => (public, wire),
        None => (row.value, b"".as_slice()),
    };
    let Ok(public) = read_ip(public) else {
        return Err(fault);
    };
    if wire.is_empty() {
        return Ok(External {
            line: row.line,
            public,
            wire: None,
        });
    }
    match read_ip(wire) {
        Ok(wire) => Ok(External {
            line: row.line,
            public,
            wire: Some(wire),
        }),
        Err(_) => Err(fault),
    }
}

/// Which of the settings that can't be judged are on at the end.
fn unjudged_on(rows: &[Row<'_>]) -> u8 {
    let mut on = 0u8;
    for row in rows {
        if let Some(setting) = Unjudged::of(row.name) {
            let bit = setting.bit();
            on = if row.is_on() { on | bit } else { on & !bit };
        }
    }
    on
}

/// The first line that switches on a setting which can't be judged, and which stays on.
pub fn first_unjudged(rows: &[Row<'_>]) -> Option<(u64, Unjudged)> {
    let on = unjudged_on(rows);
    for row in rows {
        if let Some(setting) = Unjudged::of(row.name) {
            if row.is_on() && on & setting.bit() != 0 {
                return Some((row.line, setting));
            }
        }
    }
    None
}
