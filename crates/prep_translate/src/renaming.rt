//! Addresses on the outer side of translations.

ghost use Rattle.std.specs.Prelude.{◌≡◌, ◌==◌, ◌∷◌, ◌++◌, [], false, true, Some, OnOk, OnErr, IfErr, option_map};
ghost use Rattle.std.specs.List.{find, list_any};

use crate::fault::RenamingFault;
use crate::translation::Translation;
use audit_model::{Addr, Listed, Policy};
use std::alloc::Global;

/// Translations, and the policy on their outer side.
#[derive(Debug, Drop)]
pub struct Renaming {
    policy: Policy,
    translations: Listed<Translation>,
}

impl Renaming {
    ghost use Rattle.prep_translate.specs.Renaming.{public_of, is_inner, is_public, outer_of, is_outside, is_service, has_range, is_covered, misfit_of, is_taken, Misfits};

    /// No translations yet. It takes no memory.
    pub fn new(alloc: Global, policy: Policy) -> Self
        ensures policy { result.policy ≡ policy }
        ensures none { result.translations ≡ [] }
    {
        Renaming {
            policy,
            translations: Listed::new(alloc),
        }
    }

    /// Adds a translation, or returns why it doesn't fit the policy and the earlier ones. Then
    /// nothing is added. It visits the translations and the policy once.
    pub fn add(&mut self, translation: Translation) -> Result<(), RenamingFault>
        ensures policy { self.new.policy ≡ self.old.policy }
        ensures added { OnOk result (self.new.translations ≡ self.old.translations ++ translation ∷ []) }
        ensures apart { OnOk result (is_taken self.old.translations translation ≡ false) }
        ensures fits { OnOk result (misfit_of self.old.policy translation ≡ None) }
        ensures kept { OnErr result (self.new ≡ self.old) }
        ensures err { IfErr result (λ fault. Misfits fault self.old translation) }
    {
        if self.is_taken(translation) {
            return Err(RenamingFault::Twice(translation));
        }
        if let Some(fault) = self.misfit(translation) {
            return Err(fault);
        }
        self.translations.push(translation)?;
        Ok(())
    }

    /// Whether one of the two addresses is in an earlier translation, on the same side.
    fn is_taken(&self, translation: Translation) -> bool
        ensures { result ≡ is_taken self.now.translations translation }
    {
        self.translations.as_slice().iter().any(|earlier| {
            earlier.inner == translation.inner || earlier.public == translation.public
        })
    }

    /// Why the policy isn't one of the translation's outer side.
    fn misfit(&self, translation: Translation) -> Option<RenamingFault>
        ensures { result ≡ misfit_of self.now.policy translation }
    {
        if !self.has_range(translation.public) {
            return Some(RenamingFault::NoRange(translation.public));
        }
        if self.has_range(translation.inner) {
            return Some(RenamingFault::InnerRange(translation.inner));
        }
        match self.covered(translation) {
            Some(port) => Some(RenamingFault::ListenInside(Addr {
                ip: translation.inner,
                port,
            })),
            None => None,
        }
    }

    /// Whether the policy has a relay range of the address.
    fn has_range(&self, ip: u32) -> bool
        ensures { result ≡ has_range self.now.policy ip }
    {
        self.policy
            .relay
            .as_slice()
            .iter()
            .any(|range| range.ip == ip)
    }

    /// The port of the first listen address that would be translated.
    fn covered(&self, translation: Translation) -> Option<u16>
        ensures { result ≡ option_map (λ addr. addr.port) (find (is_covered self.now.policy translation) self.now.policy.listen) }
    {
        match self
            .policy
            .listen
            .as_slice()
            .iter()
            .find(|addr| self.is_covered(translation, **addr))
        {
            Some(addr) => Some(addr.port),
            None => None,
        }
    }

    /// Whether an address is private, at a relayed port of its public address.
    fn is_covered(&self, translation: Translation, addr: Addr) -> bool
        ensures { result ≡ is_covered self.now.policy translation addr }
    {
        let outer = Addr {
            ip: translation.public,
            port: addr.port,
        };
        addr.ip == translation.inner && self.policy.relays(outer)
    }

    /// The public address of the translation with this private address.
    fn public_of(&self, ip: u32) -> Option<u32>
        ensures { result ≡ public_of self.now ip }
    {
        match self
            .translations
            .as_slice()
            .iter()
            .find(|translation| translation.inner == ip)
        {
            Some(translation) => Some(translation.public),
            None => None,
        }
    }

    /// Whether this is a private address.
    pub fn is_inner(&self, ip: u32) -> bool
        ensures { result ≡ is_inner self.now ip }
    {
        self.translations
            .as_slice()
            .iter()
            .any(|translation| translation.inner == ip)
    }

    /// Whether this is a public address at a relayed port.
    pub fn is_outside(&self, addr: Addr) -> bool
        ensures { result ≡ is_outside self.now addr }
    {
        self.is_public(addr.ip) && self.policy.relays(addr)
    }

    fn is_public(&self, ip: u32) -> bool
        ensures { result ≡ is_public self.now ip }
    {
        self.translations
            .as_slice()
            .iter()
            .any(|translation| translation.public == ip)
    }

    /// The public address and the same port, if this address is translated: a private address at a
    /// port in a relay range of the public address.
    pub fn outer_of(&self, addr: Addr) -> Option<Addr>
        ensures { result ≡ outer_of self.now addr }
    {
        let ip = self.public_of(addr.ip)?;
        let outer = Addr {
            ip,
            port: addr.port,
        };
        if self.policy.relays(outer) {
            Some(outer)
        } else {
            None
        }
    }

    /// Whether the address is an endpoint of the service, on the outer side.
    pub fn is_service(&self, addr: Addr) -> bool
        ensures { result ≡ is_service self.now.policy addr }
    {
        self.policy.listens(addr) || self.policy.relays(addr)
    }
}
