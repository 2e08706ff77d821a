//! Laws of runs that are judged in segments. Each follows from the definitions alone, and no
//! program calls it.

ghost use Rattle.std.specs.Prelude.{◌≡◌, ◌↔◌, ◌++◌, ℕ, Bool, Option, false, List, []};
ghost use Rattle.std.specs.List.{AllByRecursion, fold};
ghost use Rattle.audit_model.specs.declared.certificate.Certificate.{Certificate};
ghost use Rattle.audit_model.specs.declared.policy.Policy.{Policy};
ghost use Rattle.audit_model.specs.declared.pair.Pair.{Pair};
ghost use Rattle.audit_model.specs.declared.sighting.SightId.{SightId};
ghost use Rattle.audit_model.specs.declared.sighting.Sighting.{Sighting};
ghost use Rattle.audit_rules.specs.Allocation.{Allocation};
ghost use Rattle.audit_rules.specs.Keys.{KeyFor};
ghost use Rattle.audit_sightings.specs.Intake.{Taken, sighting_at};
ghost use Rattle.audit_server.specs.Captured.{rules_of, change_between, MayBetween};
ghost use Rattle.audit_server.specs.Run.{RunFrom};
ghost use Rattle.audit_server.specs.State.{State, after};
ghost use Rattle.audit_server.specs.Step.{Step};
ghost use Rattle.audit_whole.specs.CaptureRun.{rules_for, IsCaptureRun};
ghost use Rattle.audit_whole.specs.Glued.{glued_steps};
ghost use Rattle.audit_whole.specs.Headline.{Headline};
ghost use Rattle.audit_segments.specs.After.{cut_after};
ghost use Rattle.audit_segments.specs.Alike.{AreAlike};
ghost use Rattle.audit_segments.specs.Claims.{HeadlineOf, HeadlineExcept, IsComplete, IsJudgedUpTo, ConformsUpTo};
ghost use Rattle.audit_segments.specs.Cut.{Cut, Extends, MayName, empty_cut};
ghost use Rattle.audit_segments.specs.Ignore.{IgnorePastGrace};
ghost use Rattle.audit_segments.specs.Kept.{kept_state, SentAreOwed};
ghost use Rattle.audit_segments.specs.Shifted.{shifted_view, shifted_steps, shifted_cut};
ghost use Rattle.audit_segments.specs.Renamed.{renamed_if};
ghost use Rattle.audit_segments.specs.Segment.{View, Segment, IsSegment, IsViewOf, AreSegments, all_steps};

/// Steps are a run exactly if the first ones are a run, and the rest is a run from the state to
/// which the first ones lead.
pub fn runs_can_be_cut()
    ensures { (policy : Policy) (key_for : KeyFor) (view : View) (st : State) (front rest : List Step) → let rules = rules_of policy key_for view in
        RunFrom rules st (front ++ rest) ↔ (RunFrom rules st front × RunFrom rules (fold (after rules) st front) rest) }
{}

/// The rules of a server don't distinguish allocations that differ only in what is past the grace:
/// in each of the eleven cases of an act (RFC 8656).
pub fn rules_ignore_past_grace()
    ensures { (policy : Policy) (key_for : KeyFor) (view : View) → IgnorePastGrace (rules_of policy key_for view) }
{}

/// If steps are a run from a state, and name no excluded sighting and send no placed departure,
/// they are a run from each state that is alike, and the states to which they lead are alike.
pub fn alike_states_continue_alike()
    ensures runs { (policy : Policy) (key_for : KeyFor) (view : View) (cut : Cut) (one other : State) (steps : List Step) → let rules = rules_of policy key_for view in
        AreAlike policy.hold policy.grace cut.placed cut.excluded one other → AllByRecursion (λ (e : Step). MayName cut e.move) steps → RunFrom rules one steps →
        RunFrom rules other steps × AreAlike policy.hold policy.grace cut.placed cut.excluded (fold (after rules) one steps) (fold (after rules) other steps) }
    ensures symmetric { (hold grace : ℕ) (placed : ℕ → ℕ) (excluded : SightId → Bool) (one other : State) → AreAlike hold grace placed excluded one other → AreAlike hold grace placed excluded other one }
{}

/// Of the state to which a segment leads only the allocations, permissions and channels that are
/// not past the grace have to be kept, the arrivals that are not older than the hold, and the
/// departures that are owed.
pub fn kept_state_is_enough()
    ensures segment { (policy : Policy) (key_for : KeyFor) (view : View) (old new : Cut) (steps : List Step) → SentAreOwed old.placed old.state → IsSegment policy key_for view old steps new →
        IsSegment policy key_for view old steps (record { state = kept_state policy.hold policy.grace (fold (after (rules_of policy key_for view)) old.state steps); placed = new.placed; excluded = new.excluded }) }
    ensures sent_owed { (hold grace : ℕ) (placed : ℕ → ℕ) (st : State) → SentAreOwed placed (kept_state hold grace st) }
{}

/// Two segments, the second from the cut to which the first leads, are one segment.
pub fn segments_join()
    ensures { (policy : Policy) (key_for : KeyFor) (view : View) (a b c : Cut) (front rest : List Step) →
        IsSegment policy key_for view a front b → IsSegment policy key_for view b rest c → IsSegment policy key_for view a (front ++ rest) c }
{}

/// A segment that is judged by the sightings that it needs is a segment by all sightings.
pub fn needed_sightings_are_enough()
    ensures { (policy : Policy) (key_for : KeyFor) (all view : View) (old new : Cut) (steps : List Step) →
        IsViewOf all view old new → IsSegment policy key_for view old steps new → IsSegment policy key_for all old steps new }
{}

/// Segments, each from the cut to which the one before it leads, are one segment from the first cut
/// to the last.
pub fn many_segments_are_one()
    ensures { (policy : Policy) (key_for : KeyFor) (all : View) (first last : Cut) (segments : List Segment) →
        AreSegments policy key_for all first segments last → IsSegment policy key_for all first (all_steps segments) last }
{}

/// Without a step more sightings may be excluded, if they are not placed, and the state may be
/// replaced by one that is alike.
pub fn more_may_be_excluded()
    ensures { (policy : Policy) (key_for : KeyFor) (view : View) (old : Cut) (excluded : SightId → Bool) (state : State) →
        Extends old (record { state = state; placed = old.placed; excluded = excluded }) → AreAlike policy.hold policy.grace old.placed excluded old.state state →
        IsSegment policy key_for view old [] (record { state = state; placed = old.placed; excluded = excluded }) }
{}

/// Segments from the empty cut show that what was captured conforms up to each moment that the last
/// cut allows (`IsJudgedUpTo`).
pub fn conforms_up_to()
    ensures { (taken : Taken) (key_for : KeyFor) (segments : List Segment) (last : Cut) (moment : ℕ) →
        AreSegments taken.policy key_for (sighting_at taken) empty_cut segments last → IsJudgedUpTo taken moment last →
        ConformsUpTo taken key_for moment last (all_steps segments) }
{}

/// If all sightings are placed and no departure is owed, segments from the empty cut are a run that
/// explains the captures, and the headline holds of it. If sightings are excluded, it holds of the
/// others.
pub fn conforms_at_the_end()
    ensures all { (taken : Taken) (key_for : KeyFor) (segments : List Segment) (last : Cut) →
        AreSegments taken.policy key_for (sighting_at taken) empty_cut segments last → IsComplete taken last → ((s : SightId) → last.excluded s ≡ false) →
        HeadlineOf taken key_for (all_steps segments) }
    ensures others { (taken : Taken) (key_for : KeyFor) (segments : List Segment) (last : Cut) →
        AreSegments taken.policy key_for (sighting_at taken) empty_cut segments last → IsComplete taken last →
        HeadlineExcept taken key_for last.excluded (all_steps segments) }
{}

/// The headline of a certificate is that of its moves.
pub fn headline_of_moves()
    ensures { (taken : Taken) (key_for : KeyFor) (certificate : Certificate) → HeadlineOf taken key_for (glued_steps certificate) ↔ Headline taken key_for certificate }
{}

/// Every run that explains the captures can be cut anywhere: the steps between two places are a
/// segment, from what is kept at the first place to what is kept at the second. The first cut is
/// the empty one, and the last one is complete. So judging in segments excludes no run.
pub fn every_run_has_segments()
    ensures between { (taken : Taken) (key_for : KeyFor) (front segment rest : List Step) → IsCaptureRun taken (rules_for taken key_for) (front ++ (segment ++ rest)) →
        IsSegment taken.policy key_for (sighting_at taken) (cut_after taken key_for front) segment (cut_after taken key_for (front ++ segment)) }
    ensures start { (taken : Taken) (key_for : KeyFor) → cut_after taken key_for [] ≡ empty_cut }
    ensures complete { (taken : Taken) (key_for : KeyFor) (steps : List Step) → IsCaptureRun taken (rules_for taken key_for) steps → IsComplete taken (cut_after taken key_for steps) }
{}

/// The rules don't depend on the ids of the sightings, so they may be numbered anew when they are
/// read again.
pub fn names_do_not_matter()
    ensures may { (policy : Policy) (key_for : KeyFor) (c : Pair) (moment : ℕ) (x : Option Allocation) (i j : SightId) (arrives leaves : Option Sighting) →
        MayBetween policy key_for c moment x arrives leaves → MayBetween policy key_for c moment x (renamed_if i arrives) (renamed_if j leaves) }
    ensures change { (policy : Policy) (key_for : KeyFor) (c : Pair) (moment : ℕ) (x : Option Allocation) (i j : SightId) (arrives leaves : Option Sighting) →
        change_between policy key_for c moment x arrives leaves ≡ change_between policy key_for c moment x (renamed_if i arrives) (renamed_if j leaves) }
{}

/// A segment whose ids count from a base on each interface is a segment with the ids among all
/// sightings, whatever was excluded below the base.
pub fn names_may_be_shifted()
    ensures { (policy : Policy) (key_for : KeyFor) (view : View) (base : ℕ → ℕ) (earlier : SightId → Bool) (old new : Cut) (steps : List Step) →
        IsSegment policy key_for view old steps new →
        IsSegment policy key_for (shifted_view base view) (shifted_cut base earlier old) (shifted_steps base steps) (shifted_cut base earlier new) }
{}
