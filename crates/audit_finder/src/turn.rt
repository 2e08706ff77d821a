//! The events of one turn of captures that grow.

ghost use Rattle.std.specs.Prelude.{◌≡◌, ◌↔◌, All, IsTrue};
ghost use Rattle.audit_model.specs.Event.{key_of};
ghost use Rattle.audit_sightings.specs.Intake.{taken, NamesWhatIsThere};
ghost use Rattle.audit_finder.specs.Found.{AreThere};
ghost use Rattle.audit_finding.specs.Turn.{IsInside};

use crate::filling::{is_there, names_what_is_there};
use audit_model::{CertDrop, Event, Side};
use audit_sightings::Intake;

/// The moments of a turn.
#[derive(Clone, Copy, Debug)]
pub(crate) struct Turn {
    /// The horizon of the previous turn. All moments of this one are after it.
    last: Option<u64>,
    /// The last moment of this turn.
    horizon: u64,
}

impl Turn {
    /// The turn after the last horizon, if there was one, up to this one.
    pub(crate) fn new(last: Option<u64>, horizon: u64) -> Turn
        ensures last { result.last ≡ last }
        ensures horizon { result.horizon ≡ horizon }
    {
        Turn { last, horizon }
    }

    fn has(self, moment: u64) -> bool
        ensures { IsTrue result ↔ IsInside self.last self.horizon moment }
    {
        match self.last {
            Some(last) => last < moment && moment <= self.horizon,
            None => moment <= self.horizon,
        }
    }

    /// The events in the turn whose sightings exist.
    pub(crate) fn events(self, intake: &Intake, mut events: Vec<(u32, Event)>) -> Vec<(u32, Event)>
        ensures named { All (λ e. NamesWhatIsThere (taken intake.now) e.1) result.items }
        ensures inside { All (λ e. IsInside self.last self.horizon (key_of e.1).moment) result.items }
    {
        events.retain(|(_, event)| {
            self.has(event.key().moment) && names_what_is_there(intake, *event)
        });
        events
    }

    /// The drops of existing arrivals in the turn.
    pub(crate) fn drops(self, intake: &Intake, mut drops: Vec<CertDrop>) -> Vec<CertDrop>
        ensures there { AreThere (taken intake.now) result.items }
        ensures inside { All (λ d. IsInside self.last self.horizon d.key.moment) result.items }
    {
        drops.retain(|dropped| {
            self.has(dropped.key.moment) && is_there(intake, Side::Arrives, dropped.sight)
        });
        drops
    }
}
