//! A certificate of a finder.

ghost use Rattle.std.specs.Prelude.{◌≡◌};

use audit_model::Certificate;

/// A certificate that a walk or passes made.
#[derive(Drop)]
pub struct FoundCertificate {
    certificate: Certificate,
    /// Whether the server kept to its rules by the certificate, by the finder's own judgement. No
    /// verdict depends on it.
    seems_conforming: bool,
}

impl FoundCertificate {
    pub fn new(certificate: Certificate, seems_conforming: bool) -> FoundCertificate
        ensures certificate { result.certificate ≡ certificate }
        ensures seems { result.seems_conforming ≡ seems_conforming }
    {
        FoundCertificate {
            certificate,
            seems_conforming,
        }
    }

    /// Whether the server kept to its rules by the certificate, by the finder's own judgement.
    pub fn seems_conforming(&self) -> bool
        ensures { result ≡ self.now.seems_conforming }
    {
        self.seems_conforming
    }

    pub fn into_certificate(self) -> Certificate
        ensures { result ≡ self.certificate }
    {
        self.certificate
    }
}
