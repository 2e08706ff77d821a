//! The settings that are read.

ghost use Rattle.std.specs.Prelude.{◌≡◌};
ghost use Rattle.prep_coturn.specs.Names.{setting_name, unjudged_name};

/// A setting of addresses, ports or clients.
#[derive(Clone, Copy, Debug, PartialEq, Eq)]
pub enum Setting {
    ListeningIp,
    RelayIp,
    ExternalIp,
    AuxServer,
    ListeningPort,
    TlsPort,
    AltPort,
    AltTlsPort,
    MinPort,
    MaxPort,
    Cert,
    Key,
    NoDtls,
    NoRfc5780,
    NoTcp,
    NoTls,
    Mobility,
    AlternateServer,
    PermissionLifetime,
    ChannelLifetime,
}

impl Setting {
    /// The setting with a name.
    pub fn of(name: &[u8]) -> Option<Setting> {
        for setting in SETTINGS {
            if setting.name().as_bytes() == name {
                return Some(setting);
            }
        }
        None
    }

    /// Its name in a configuration.
    pub fn name(self) -> &'static str
        ensures { result.now ≡ setting_name self }
    {
        match self {
            Setting::ListeningIp => "listening-ip",
            Setting::RelayIp => "relay-ip",
            Setting::ExternalIp => "external-ip",
            Setting::AuxServer => "aux-server",
            Setting::ListeningPort => "listening-port",
            Setting::TlsPort => "tls-listening-port",
            Setting::AltPort => "alt-listening-port",
            Setting::AltTlsPort => "alt-tls-listening-port",
            Setting::MinPort => "min-port",
            Setting::MaxPort => "max-port",
            Setting::Cert => "cert",
            Setting::Key => "pkey",
            Setting::NoDtls => "no-dtls",
            Setting::NoRfc5780 => "no-rfc5780",
            Setting::NoTcp => "no-tcp",
            Setting::NoTls => "no-tls",
            Setting::Mobility => "mobility",
            Setting::AlternateServer => "alternate-server",
            Setting::PermissionLifetime => "permission-lifetime",
            Setting::ChannelLifetime => "channel-lifetime",
        }
    }
}

const SETTINGS: [Setting; 20] = [
    Setting::ListeningIp,
    Setting::RelayIp,
    Setting::ExternalIp,
    Setting::AuxServer,
    Setting::ListeningPort,
    Setting::TlsPort,
    Setting::AltPort,
    Setting::AltTlsPort,
    Setting::MinPort,
    Setting::MaxPort,
    Setting::Cert,
    Setting::Key,
    Setting::NoDtls,
    Setting::NoRfc5780,
    Setting::NoTcp,
    Setting::NoTls,
    Setting::Mobility,
    Setting::AlternateServer,
    Setting::PermissionLifetime,
    Setting::ChannelLifetime,
];

/// A setting with which nothing could conform, or nothing would be judged.
#[derive(Clone, Copy, Debug, PartialEq, Eq)]
pub enum Unjudged {
    NoAuth,
    Oauth,
    ServerRelay,
    NoUdp,
    NoUdpRelay,
    StunOnly,
    ListeningDevice,
    RelayDevice,
}

const UNJUDGED: [Unjudged; 8] = [
    Unjudged::NoAuth,
    Unjudged::Oauth,
    Unjudged::ServerRelay,
    Unjudged::NoUdp,
    Unjudged::NoUdpRelay,
    Unjudged::StunOnly,
    Unjudged::ListeningDevice,
    Unjudged::RelayDevice,
];

impl Unjudged {
    /// The setting with a name.
    pub fn of(name: &[u8]) -> Option<Unjudged> {
        for setting in UNJUDGED {
            if setting.name().as_bytes() == name {
                return Some(setting);
            }
        }
        None
    }

    /// Its name in a configuration.
    pub fn name(self) -> &'static str
        ensures { result.now ≡ unjudged_name self }
    {
        match self {
            Unjudged::NoAuth => "no-auth",
            Unjudged::Oauth => "oauth",
            Unjudged::ServerRelay => "server-relay",
            Unjudged::NoUdp => "no-udp",
            Unjudged::NoUdpRelay => "no-udp-relay",
            Unjudged::StunOnly => "stun-only",
            Unjudged::ListeningDevice => "listening-device",
            Unjudged::RelayDevice => "relay-device",
        }
    }

    /// Why it is refused, for people.
    pub fn why(self) -> &'static str {
        match self {
            Unjudged::NoAuth => "whoever asks is served: a success without a user is R2",
            Unjudged::Oauth => "keys come by OAuth, which is not judged",
            Unjudged::ServerRelay => "permissions are not asked of what peers send: R6",
            Unjudged::NoUdp => "no client comes by UDP: nothing is judged",
            Unjudged::NoUdpRelay => "no relayed address is UDP: nothing is judged",
            Unjudged::StunOnly => {
                "only STUN is served: write the policy by hand, with listen lines alone"
            }
            Unjudged::ListeningDevice => "addresses of a device: say listening-ip",
            Unjudged::RelayDevice => "addresses of a device: say relay-ip",
        }
    }

    /// Its own bit.
    pub(crate) fn bit(self) -> u8 {
        match self {
            Unjudged::NoAuth => 1,
            Unjudged::Oauth => 2,
            Unjudged::ServerRelay => 4,
            Unjudged::NoUdp => 8,
            Unjudged::NoUdpRelay => 16,
            Unjudged::StunOnly => 32,
            Unjudged::ListeningDevice => 64,
            Unjudged::RelayDevice => 128,
        }
    }
}
