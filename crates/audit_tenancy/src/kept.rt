//! The tenancies so far, reduced to the two that may clash with a later one.

ghost use Rattle.std.specs.Prelude.{◌≡◌, ◌++◌, ◌∷◌, [], List, Some, None, IsTrue, false};
ghost use Rattle.audit_model.specs.declared.verdict.Tenancy.{Tenancy};
ghost use Rattle.audit_tenancy.specs.Kept.{ComeBefore, Keeps, ClashesWithOne};
ghost use Rattle.audit_tenancy.specs.Hold.{IsLongerOf};

use crate::hold::{outlasts, still_held};
use audit_model::Tenancy;

/// Of the tenancies of the newest address so far, the one that keeps it longest, and the one that
/// keeps it longest among those of other lanes than that.
#[derive(Clone, Copy)]
pub(crate) struct Kept {
    pub(crate) longest: Option<Tenancy>,
    pub(crate) other: Option<Tenancy>,
}

impl Kept {
    /// Whether the new one clashes with any of those so far, if it comes after them.
    pub(crate) fn clashes(&self, new: &Tenancy) -> bool
        ensures some { (earlier : List Tenancy) → Keeps earlier self.now.longest self.now.other → ComeBefore earlier new.now
            → IsTrue result → ClashesWithOne earlier new.now }
        ensures none { (earlier : List Tenancy) → Keeps earlier self.now.longest self.now.other → ComeBefore earlier new.now
            → result ≡ false → ¬ ClashesWithOne earlier new.now }
    {
        let Some(longest) = self.longest else {
            return false;
        };
        if longest.relayed != new.relayed {
            return false;
        }
        if longest.born.lane != new.born.lane {
            return still_held(&longest, new.born);
        }
        match self.other {
            Some(other) => still_held(&other, new.born),
            None => false,
        }
    }

    /// The state after the new one.
    pub(crate) fn with(self, new: Tenancy) -> Kept
        ensures { (earlier : List Tenancy) → Keeps earlier self.longest self.other → ComeBefore earlier new
            → Keeps (earlier ++ new ∷ []) result.longest result.other }
    {
        let Some(longest) = self.longest else {
            return Kept::one(new);
        };
        if longest.relayed != new.relayed {
            return Kept::one(new);
        }
        if longest.born.lane == new.born.lane {
            return Kept {
                longest: Some(longer(longest, new)),
                other: self.other,
            };
        }
        if outlasts(&longest, &new) {
            let other = match self.other {
                Some(other) => longer(other, new),
                None => new,
            };
            return Kept {
                longest: self.longest,
                other: Some(other),
            };
        }
        Kept {
            longest: Some(new),
            other: self.longest,
        }
    }

    fn one(new: Tenancy) -> Kept
        ensures longest { result.longest ≡ Some new }
        ensures other { result.other ≡ None }
    {
        Kept {
            longest: Some(new),
            other: None,
        }
    }
}

fn longer(one: Tenancy, other: Tenancy) -> Tenancy
    ensures { IsLongerOf one other result }
{
    if outlasts(&one, &other) { one } else { other }
}
