//! Properties of every server, by the definitions alone. No program calls these.

ghost use Rattle.std.specs.Prelude.{◌≡◌, ◌≢◌, ◌≤◌, ◌⊎◌, ◌↔◌, ◌++◌, ◌∷◌, ℕ, List, Option, Some, map};
ghost use Rattle.std.specs.List.{AllByRecursion};
ghost use Rattle.audit_model.specs.declared.address.Addr.{Addr};
ghost use Rattle.audit_model.specs.declared.pair.Pair.{Pair};
ghost use Rattle.audit_model.specs.declared.policy.Policy.{Policy};
ghost use Rattle.audit_model.specs.declared.sighting.SightId.{SightId};
ghost use Rattle.audit_model.specs.declared.sighting.Sighting.{Sighting};
ghost use Rattle.audit_rules.specs.Keys.{KeyFor};
ghost use Rattle.audit_server.specs.Acting.{acting};
ghost use Rattle.audit_server.specs.Captured.{rules_of};
ghost use Rattle.audit_server.specs.Glued.{Numbered, joined, sorted};
ghost use Rattle.audit_server.specs.Holding.{AnyOf, HoldsAt};
ghost use Rattle.audit_server.specs.Homes.{AreDistinct, AreOfPairs, InOneLane, MeetInLanes};
ghost use Rattle.audit_server.specs.Keys.{AgreeAt};
ghost use Rattle.audit_server.specs.Lawful.{AreLawful};
ghost use Rattle.audit_server.specs.Placed.{Placed, Rises, Runs, of_lane, state_after, step_of};
ghost use Rattle.audit_server.specs.Placing.{KeepOrder, KeysFollow, times_placed};
ghost use Rattle.audit_server.specs.Run.{HasAddress, IsRun};
ghost use Rattle.audit_server.specs.State.{at_first};
ghost use Rattle.audit_server.specs.Step.{Step, Act};
ghost use Rattle.audit_server.specs.Tenancies.{tenancies};
ghost use Rattle.audit_server.specs.Whole.{ClashNowhere, EachRuns, all_tenancies};

/// Only a usable allocation is renewed, and its new lifetime counts from the moment.
pub fn rules_are_lawful()
    ensures { (policy : Policy) (key_for : KeyFor) (sighting : SightId → Option Sighting) → AreLawful (rules_of policy key_for sighting) }
{}

/// A list is a run by some keys exactly if it is one by others that are the same for the users and
/// realms that the arrivals of its acts name.
pub fn keys_that_matter()
    ensures { (policy : Policy) (one other : KeyFor) (sighting : SightId → Option Sighting) (steps : List Step) →
        AllByRecursion (λ (e : Step). AgreeAt one other sighting e.move) steps →
        IsRun (rules_of policy one sighting) steps ↔ IsRun (rules_of policy other sighting) steps }
{}

/// At each event of a list in order, another lane's client has a usable allocation with an address
/// in the server's table exactly if a tenancy of that lane, taken by its final end, holds the
/// address there.
pub fn held()
    ensures { (policy : Policy) (key_for : KeyFor) (sighting : SightId → Option Sighting) (pairs : ℕ → Option Pair) (before : List Placed) (event : Placed) (rest : List Placed) →
        let rules = rules_of policy key_for sighting in let all = before ++ event ∷ rest in
        AreDistinct pairs → Rises all → AreOfPairs pairs all →
        (other : ℕ) (pair : Pair) → pairs other ≡ Some pair → event.at.lane ≢ other → Runs rules at_first (of_lane other all) → (relayed : Addr) →
        HasAddress policy.grace event.at.key.moment relayed ((state_after rules before).table pair) ↔ AnyOf (HoldsAt event.at relayed) (tenancies rules other all) }
{}

/// The one list of all lanes, by moment, tie and lane: it is in order, has the events of each lane,
/// and is the only such list. If keys rise along an interface and each sighting is placed once, it
/// keeps the interface's order.
pub fn one_list()
    ensures order { (lanes : List (List Placed)) → Numbered 0 lanes → AllByRecursion Rises lanes → Rises (sorted (joined lanes)) }
    ensures each { (lanes : List (List Placed)) → Numbered 0 lanes → AllByRecursion Rises lanes →
        (lane : ℕ) → of_lane lane (sorted (joined lanes)) ≡ of_lane lane (joined lanes) }
    ensures alone { (one other : List Placed) → Rises one → Rises other → ((lane : ℕ) → of_lane lane one ≡ of_lane lane other) → one ≡ other }
    ensures along { (events : List Placed) → Rises events → KeysFollow events →
        ((s : SightId) → times_placed s (map step_of events) ≤ 1) → KeepOrder (map step_of events) }
{}

/// Lanes of one client each are runs, and no two of their tenancies clash, exactly if their one
/// list is a run of one server for all clients, in which all moves that name a sighting are in one
/// lane.
pub fn lanes_are_the_whole()
    ensures whole { (policy : Policy) (key_for : KeyFor) (sighting : SightId → Option Sighting) (pairs : ℕ → Option Pair) (lanes : List (List Placed)) →
        let rules = rules_of policy key_for sighting in
        AreDistinct pairs → Numbered 0 lanes → AllByRecursion Rises lanes → AreOfPairs pairs (joined lanes) →
        ((s : SightId) → times_placed s (map step_of (joined lanes)) ≤ 1) →
        EachRuns rules lanes → ClashNowhere (all_tenancies rules lanes) →
        InOneLane (sorted (joined lanes)) × IsRun rules (map step_of (sorted (joined lanes))) }
    ensures each { (policy : Policy) (key_for : KeyFor) (sighting : SightId → Option Sighting) (pairs : ℕ → Option Pair) (lanes : List (List Placed)) →
        let rules = rules_of policy key_for sighting in
        AreDistinct pairs → Numbered 0 lanes → AllByRecursion Rises lanes → AreOfPairs pairs (joined lanes) →
        InOneLane (sorted (joined lanes)) → IsRun rules (map step_of (sorted (joined lanes))) →
        EachRuns rules lanes × ClashNowhere (all_tenancies rules lanes) }
{}

/// In a run that places each sighting at most once, an act is in the lane of its arrival and in
/// that of its departure exactly if all moves that name a sighting are in one lane.
pub fn meeting_in_lanes()
    ensures { (policy : Policy) (key_for : KeyFor) (sighting : SightId → Option Sighting) (events : List Placed) →
        IsRun (rules_of policy key_for sighting) (map step_of events) → ((s : SightId) → times_placed s (map step_of events) ≤ 1) →
        MeetInLanes events ↔ InOneLane events }
{}

/// In a run that places each sighting at most once, the first act that names a sighting is for the
/// client of each act that does.
pub fn one_client_acts()
    ensures { (policy : Policy) (key_for : KeyFor) (sighting : SightId → Option Sighting) (before : List Step) (act : Step) (rest : List Step) →
        IsRun (rules_of policy key_for sighting) (before ++ act ∷ rest) → ((s : SightId) → times_placed s (before ++ act ∷ rest) ≤ 1) →
        (client : Pair) (arrival gives s : SightId) → act.move ≡ Act client arrival gives → (s ≡ arrival) ⊎ (s ≡ gives) →
        acting s (before ++ act ∷ rest) ≡ Some client }
{}
