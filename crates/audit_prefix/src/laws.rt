//! Properties of every certificate that grows, by the definitions alone. No program calls these.

ghost use Rattle.std.specs.Prelude.{◌≡◌, ◌≢◌, ◌↔◌, ◌<◌, ◌≤◌, ◌++◌, ℕ, List, [], Option, Some, None, Contains, IfSome, option_to_list};
ghost use Rattle.std.specs.List.{AllByRecursion};
ghost use Rattle.audit_model.specs.declared.address.Addr.{Addr};
ghost use Rattle.audit_model.specs.declared.certificate.Certificate.{Certificate};
ghost use Rattle.audit_model.specs.declared.extension.Extension.{Extension};
ghost use Rattle.audit_model.specs.declared.verdict.Breach.{Breach};
ghost use Rattle.audit_model.specs.declared.verdict.Tenancy.{Tenancy};
ghost use Rattle.audit_model.specs.Clash.{ShowsClash, Precedes};
ghost use Rattle.audit_rules.specs.Keys.{KeyFor};
ghost use Rattle.audit_sightings.specs.Intake.{Taken};
ghost use Rattle.audit_order.specs.Grown.{Extends};
ghost use Rattle.audit_order.specs.Kept.{Stays};
ghost use Rattle.audit_server.specs.State.{State};
ghost use Rattle.audit_server.specs.Placed.{Placed, Runs, led};
ghost use Rattle.audit_server.specs.Tenancies.{tenancies_in};
ghost use Rattle.audit_server.specs.Whole.{all_tenancies, ClashNowhere};
ghost use Rattle.audit_whole.specs.Glued.{lanes_from};
ghost use Rattle.audit_whole.specs.CaptureRun.{rules_for};
ghost use Rattle.audit_sightings.specs.Intake.{AreNumbered};
ghost use Rattle.audit_whole.specs.Passes.{Passes};
ghost use Rattle.audit_prefix.specs.Advance.{StandsBy, StandsByLast, OfMoments};
ghost use Rattle.audit_prefix.specs.Live.{Standing, IsGoing, MayAdvance, Advances, horizon_of};
ghost use Rattle.audit_prefix.specs.Prefix.{IsPrefix, PassesSoFar, EachGoes};
ghost use Rattle.audit_prefix.specs.Breaches.{LiveBreach, IsVerdict, LeftAtTheEnd, IsBreachOfTurn};
ghost use Rattle.audit_prefix.specs.Turn.{turns_of, fresh, AreEnough, HoldsOn, Covers, Turn, whole, fresh_in, runs_after, KnowsHolders, NotesHolders};
ghost use Rattle.audit_prefix.specs.Walk.{nothing_yet, remembered_all, Walks, HaveBytes};

/// A certificate that passes so far is a prefix of a run that explains the captures.
pub fn front_of_a_run()
    ensures { (taken : Taken) (key_for : KeyFor) (certificate : Certificate) (horizon : ℕ) → AreNumbered taken →
        PassesSoFar taken (rules_for taken key_for) certificate → StandsBy horizon certificate → IsPrefix taken (rules_for taken key_for) certificate horizon }
{}

/// A lane goes on if its new events go on from the state after the old ones.
pub fn lane_goes_on()
    ensures { (taken : Taken) (key_for : KeyFor) (before more : List Placed) (st : State) →
        Runs (rules_for taken key_for) st (before ++ more) ↔ (Runs (rules_for taken key_for) st before × Runs (rules_for taken key_for) (led (rules_for taken key_for) st before) more) }
{}

/// Events that go on by the sightings of an intake go on, to the same state, as the intake grows.
pub fn sightings_to_come_change_nothing()
    ensures { (before now : Taken) (key_for : KeyFor) (events : List Placed) (st : State) → Stays before now →
        Runs (rules_for before key_for) st events → Runs (rules_for now key_for) st events × (led (rules_for now key_for) st events ≡ led (rules_for before key_for) st events) }
{}

/// After an extension that comes past the last horizon, it is enough to check for clashes the
/// tenancies that end in it or are current after it: those that are born in it, and those with
/// their address that have not expired at the last horizon.
pub fn enough_are_checked()
    ensures { (taken : Taken) (key_for : KeyFor) (old : Certificate) (extension : Extension) (new : Certificate) (last : ℕ) (checked : List Tenancy) →
        Extends old extension new → StandsBy last old → OfMoments (λ moment. last < moment) extension → EachGoes (rules_for taken key_for) (lanes_from 0 new.lanes) →
        ((breach : Breach) → ¬ ShowsClash (all_tenancies (rules_for taken key_for) (lanes_from 0 old.lanes)) breach) →
        AreEnough last (all_tenancies (rules_for taken key_for) (lanes_from 0 new.lanes)) (fresh (rules_for taken key_for) (turns_of old extension)) checked →
        (breach : Breach) → ShowsClash (all_tenancies (rules_for taken key_for) (lanes_from 0 new.lanes)) breach ↔ ShowsClash checked breach }
{}

/// And everything is at or before the new horizon.
pub fn stands_by_the_horizon()
    ensures { (old : Certificate) (extension : Extension) (new : Certificate) (horizon : ℕ) → Extends old extension new → StandsBy horizon old →
        OfMoments (λ moment. moment ≤ horizon) extension → StandsBy horizon new }
{}

/// A certificate so far has no breach exactly if everything passes so far.
pub fn no_breach()
    ensures { (taken : Taken) (key_for : KeyFor) (certificate : Certificate) → AreNumbered taken →
        LiveBreach taken key_for certificate None ↔ PassesSoFar taken (rules_for taken key_for) certificate }
{}

/// If a certificate without skews has no breach so far, the verdict is that of the checks at the
/// end.
pub fn verdict_at_the_end()
    ensures { (taken : Taken) (key_for : KeyFor) (certificate : Certificate) (found : Option Breach) → AreNumbered taken → certificate.skews ≡ [] →
        LiveBreach taken key_for certificate None → LeftAtTheEnd taken key_for certificate found → IsVerdict taken key_for certificate found }
{}

/// The verdict is no breach exactly if everything passes.
pub fn conforming()
    ensures { (taken : Taken) (key_for : KeyFor) (certificate : Certificate) → AreNumbered taken →
        IsVerdict taken key_for certificate None ↔ Passes taken (rules_for taken key_for) certificate }
{}

/// If there is no breach, there is none as the intake grows.
pub fn no_breach_later()
    ensures { (before now : Taken) (key_for : KeyFor) (certificate : Certificate) → AreNumbered before → AreNumbered now → Stays before now →
        LiveBreach before key_for certificate None → LiveBreach now key_for certificate None }
{}

/// If two tenancies of one address go on after the horizon, and neither has expired, both are of
/// one lane.
pub fn one_holder()
    ensures { (tenancies : List Tenancy) (horizon : ℕ) (one other : Tenancy) → ((breach : Breach) → ¬ ShowsClash tenancies breach) →
        Contains tenancies one → Contains tenancies other → HoldsOn horizon one → HoldsOn horizon other → one.relayed ≡ other.relayed → one.born.lane ≡ other.born.lane }
{}

/// If there was no breach before, it is enough to check an extension that comes past the last
/// horizon by itself: its placement, its events after the state of their lanes, and its tenancies
/// with those that may clash with them. The result is the breach of the whole certificate.
pub fn breach_of_a_turn()
    ensures { (taken : Taken) (key_for : KeyFor) (old : Certificate) (extension : Extension) (new : Certificate) (last : Option ℕ) (checked : List Tenancy) (found : Option Breach) → AreNumbered taken →
        Extends old extension new → StandsByLast last old → OfMoments (λ moment. IfSome last (λ before. before < moment)) extension → LiveBreach taken key_for old None →
        ((t : Tenancy) → Contains checked t → Contains (all_tenancies (rules_for taken key_for) (lanes_from 0 new.lanes)) t) → Covers (rules_for taken key_for) last (turns_of old extension) checked →
        IsBreachOfTurn taken key_for old extension new checked found → LiveBreach taken key_for new found }
{}

/// A lane's tenancies are the ended ones in its state and the current one; the fresh ones of a turn
/// are those that ended in the turn and the current one.
pub fn tenancies_remembered()
    ensures all { (taken : Taken) (key_for : KeyFor) (events : List Placed) →
        tenancies_in (rules_for taken key_for) events ≡ (remembered_all (rules_for taken key_for) nothing_yet events).ended ++ option_to_list (remembered_all (rules_for taken key_for) nothing_yet events).runs }
    ensures fresh { (taken : Taken) (key_for : KeyFor) (turn : Turn) (since : List Tenancy) →
        (remembered_all (rules_for taken key_for) nothing_yet (whole turn)).ended ≡ (remembered_all (rules_for taken key_for) nothing_yet turn.before).ended ++ since →
        fresh_in (rules_for taken key_for) turn ≡ since ++ option_to_list (remembered_all (rules_for taken key_for) nothing_yet (whole turn)).runs }
{}

/// A live audit that goes on is a prefix of a run, up to its last horizon.
pub fn live_front()
    ensures { (key_for : KeyFor) (live : Standing) → AreNumbered live.taken → IsGoing key_for live →
        IsPrefix live.taken (rules_for live.taken key_for) live.certificate (horizon_of live.last) }
{}

/// It goes on after an advance that is accepted.
pub fn live_goes_on()
    ensures { (key_for : KeyFor) (old new : Standing) (horizon : ℕ) (extension : Extension) → IsGoing key_for old → MayAdvance old horizon extension →
        Advances key_for old horizon extension new → IsGoing key_for new }
{}

/// A tenancy that goes on has expired when its address is granted to another lane later: so only
/// the tenancy that was born last can hold the address.
pub fn over_before_the_next()
    ensures { (tenancies : List Tenancy) (one next : Tenancy) → ((breach : Breach) → ¬ ShowsClash tenancies breach) → Contains tenancies one → Contains tenancies next →
        one.relayed ≡ next.relayed → one.born.lane ≢ next.born.lane → Precedes one.born.key one.born.lane next.born.key next.born.lane → one.stopped ≡ None →
        one.last < next.born.key.moment }
{}

/// If the holders of addresses are noted as defined, the notes are right at the next horizon.
pub fn holders_stay_known()
    ensures { (taken : Taken) (key_for : KeyFor) (old : Certificate) (extension : Extension) (new : Certificate) (last horizon : ℕ) (noted then_noted : Addr → Option ℕ) →
        Extends old extension new → StandsBy last old → OfMoments (λ moment. last < moment) extension → StandsBy horizon new → last ≤ horizon → EachGoes (rules_for taken key_for) (lanes_from 0 new.lanes) →
        ((breach : Breach) → ¬ ShowsClash (all_tenancies (rules_for taken key_for) (lanes_from 0 new.lanes)) breach) →
        AllByRecursion (λ (turn : Turn). KnowsHolders (rules_for taken key_for) last noted turn.before) (turns_of old extension) → NotesHolders (rules_for taken key_for) last (turns_of old extension) noted then_noted →
        (turn : Turn) → Contains (turns_of old extension) turn → KnowsHolders (rules_for taken key_for) horizon then_noted (whole turn) }
{}

/// Of lanes without events in a turn it is enough to check those that are noted for the address of
/// a tenancy born in it.
pub fn noted_holders_are_enough()
    ensures { (taken : Taken) (key_for : KeyFor) (last : ℕ) (turns : List Turn) (noted : Addr → Option ℕ) (checked : List Tenancy) →
        AllByRecursion (λ (turn : Turn). KnowsHolders (rules_for taken key_for) last noted turn.before) turns →
        ((turn : Turn) → Contains turns turn → turn.more ≢ [] → (t : Tenancy) → Contains (fresh_in (rules_for taken key_for) turn) t → Contains checked t) →
        ((turn : Turn) → Contains turns turn → turn.more ≡ [] → (held new : Tenancy) → runs_after (rules_for taken key_for) None None turn.before ≡ Some held → Contains (fresh (rules_for taken key_for) turns) new →
        last < new.born.key.moment → noted new.relayed ≡ Some held.born.lane → Contains checked held) →
        Covers (rules_for taken key_for) (Some last) turns checked }
{}

/// A walk has one outcome: an event that may come breaks no rule, and the first broken rule is
/// unique.
pub fn one_outcome()
    ensures { (taken : Taken) (key_for : KeyFor) (events : List Placed) (one other : Option Breach) → HaveBytes taken →
        Walks taken key_for nothing_yet events one → Walks taken key_for nothing_yet events other → one ≡ other }
{}

/// A live audit with an empty certificate goes on.
pub fn live_begins()
    ensures { (key_for : KeyFor) (live : Standing) → AreNumbered live.taken → live.certificate.lanes ≡ [] → live.certificate.drops ≡ [] → live.last ≡ None → IsGoing key_for live }
{}
