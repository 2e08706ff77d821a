//! The counts of a capture's translations.

ghost use Rattle.std.specs.Prelude.{◌≡◌};
ghost use Rattle.prep_translate.specs.Tallied.{no_tally, tallied, one_if, first_or};

use audit_model::Addr;

/// A datagram with a translated address.
#[derive(Clone, Copy, Debug, PartialEq, Eq)]
pub struct Moved {
    /// Whether its source was translated; else only its destination.
    pub is_out: bool,
    /// Whether both ends are endpoints of the service after the translation.
    pub is_inside: bool,
    /// Its ends after the translation.
    pub ends: Ends,
}

/// The source and the destination of a datagram.
#[derive(Clone, Copy, Debug, PartialEq, Eq)]
pub struct Ends {
    pub from: Addr,
    pub to: Addr,
}

/// The numbers of a capture's translated datagrams.
#[derive(Clone, Copy, Debug, PartialEq, Eq)]
pub struct Tally {
    /// Those with a translated source.
    pub outgoing: u64,
    /// Those with only a translated destination.
    pub incoming: u64,
    /// Those of both kinds with both ends in the service.
    pub inside: u64,
    /// The first of these.
    pub first: Option<Ends>,
}

impl Tally {
    /// No datagrams.
    pub fn none() -> Self
        ensures { result ≡ no_tally }
    {
        Tally {
            outgoing: 0,
            incoming: 0,
            inside: 0,
            first: None,
        }
    }

    /// With one more block; the counts saturate at 64 bits.
    pub fn with(self, moved: Option<Moved>) -> Self
        ensures { result ≡ tallied self moved }
    {
        let Some(moved) = moved else {
            return self;
        };
        Tally {
            outgoing: with_one_if(self.outgoing, moved.is_out),
            incoming: with_one_if(self.incoming, !moved.is_out),
            inside: with_one_if(self.inside, moved.is_inside),
            first: first_of(self.first, moved),
        }
    }
}

/// A count, plus one if the condition is true.
fn with_one_if(count: u64, is_so: bool) -> u64
    ensures { result ≡ one_if count is_so }
{
    if is_so {
        count.saturating_add(1)
    } else {
        count
    }
}

/// The first of the datagrams with both ends in the service.
fn first_of(first: Option<Ends>, moved: Moved) -> Option<Ends>
    ensures { result ≡ first_or first moved }
{
    match first {
        Some(ends) => Some(ends),
        None => {
            if moved.is_inside {
                Some(moved.ends)
            } else {
                None
            }
        }
    }
}
