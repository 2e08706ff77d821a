//! Properties of every certificate, by the definitions alone. No program calls these.

ghost use Rattle.std.specs.Prelude.{◌≡◌, ◌≢◌, ◌≤◌, ◌↔◌, ◌++◌, ◌∷◌, ℕ, List, [], Some, IsTrue, length};
ghost use Rattle.std.specs.List.{AllByRecursion};
ghost use Rattle.audit_model.specs.declared.address.Addr.{Addr};
ghost use Rattle.audit_model.specs.declared.certificate.Certificate.{Certificate};
ghost use Rattle.audit_model.specs.declared.certificate.TheConstants.{MAX_LANES};
ghost use Rattle.audit_model.specs.declared.pair.Pair.{Pair};
ghost use Rattle.audit_model.specs.declared.sighting.Side.TheVariants as Side;
ghost use Rattle.audit_model.specs.declared.sighting.SightId.{SightId};
ghost use Rattle.audit_model.specs.declared.sighting.Sighting.{Sighting};
ghost use Rattle.audit_model.specs.Policy.{AreApart, relays};
ghost use Rattle.audit_cert.specs.Fits.{IsCertificate};
ghost use Rattle.audit_cert.specs.Spelling.{said_by};
ghost use Rattle.audit_rules.specs.Keys.{KeyFor};
ghost use Rattle.audit_sightings.specs.Bounds.{IsBounded};
ghost use Rattle.audit_sightings.specs.Intake.{Taken, AreNumbered, sighting_at, taken as taken_of};
ghost use Rattle.audit_server.specs.Acting.{acting_pairs};
ghost use Rattle.audit_server.specs.Holding.{AnyOf, HoldsAt};
ghost use Rattle.audit_server.specs.Placed.{Placed, Rises, state_after};
ghost use Rattle.audit_server.specs.Run.{HasAddress, RunFrom};
ghost use Rattle.audit_server.specs.State.{at_first};
ghost use Rattle.audit_server.specs.Step.{Step, Out};
ghost use Rattle.audit_server.specs.Tenancies.{tenancies};
ghost use Rattle.audit_server.specs.Whole.{EachRuns};
ghost use Rattle.audit_whole.specs.BindingCapture.{binding_capture, binding_steps};
ghost use Rattle.audit_whole.specs.CaptureRun.{rules_for, IsCaptureRun};
ghost use Rattle.audit_whole.specs.Conforms.{Conforms};
ghost use Rattle.audit_whole.specs.Departures.{AreRelayed, IsRelayedUp};
ghost use Rattle.audit_whole.specs.Glued.{by_lane, glued, glued_steps, lanes_from, pairs_of};
ghost use Rattle.audit_whole.specs.Grounded.{IsGrounded};
ghost use Rattle.audit_whole.specs.Headline.{Headline};
ghost use Rattle.audit_whole.specs.Passes.{Passes};

use audit_sightings::Intake;
use audit_sightings::laws::sightings_are_bounded;

/// At each move of the glued list, the client of another lane has a usable allocation with an
/// address in the server's one table exactly if a tenancy of that lane, taken by its final end,
/// holds the address there (RFC 8656, section 6).
pub fn held()
    ensures { (taken : Taken) (key_for : KeyFor) (certificate : Certificate) → let rules = rules_for taken key_for in
        AllByRecursion Rises (by_lane certificate) → EachRuns rules (lanes_from 0 certificate.lanes) →
        (before : List Placed) (event : Placed) (rest : List Placed) → before ++ event ∷ rest ≡ glued certificate →
        (other : ℕ) (pair : Pair) → pairs_of certificate other ≡ Some pair → event.at.lane ≢ other → (relayed : Addr) →
        HasAddress taken.policy.grace event.at.key.moment relayed ((state_after rules before).table pair)
        ↔ AnyOf (HoldsAt event.at relayed) (tenancies rules other (glued certificate)) }
{}

/// The checks of the parts are equivalent to the conditions of the whole.
pub fn parts_are_whole()
    ensures { (taken : Taken) (key_for : KeyFor) (certificate : Certificate) → AreNumbered taken →
        Passes taken (rules_for taken key_for) certificate ↔ Conforms taken (rules_for taken key_for) certificate }
{}

/// Each datagram that a run relays had an allocation that lasted, and a permission or a channel
/// that lasted, requested by one user; and each departure was sent by an act (RFC 8656, sections 7
/// to 12).
pub fn grounded()
    ensures { (taken : Taken) (key_for : KeyFor) (list : List Step) → RunFrom (rules_for taken key_for) at_first list → IsGrounded taken key_for list }
{}

/// Every departure from a relayed address in a run was sent by an act that has its reasons: the
/// data came from a client that has the address, under its permission or channel. `read_policy`
/// returns policies whose listen addresses are in no relay range.
pub fn relay_addresses()
    ensures { (taken : Taken) (key_for : KeyFor) → AreApart taken.policy → (list : List Step) → RunFrom (rules_for taken key_for) at_first list →
        (before : List Step) (e : Step) (rest : List Step) → before ++ e ∷ rest ≡ list → (t : SightId) → e.move ≡ Out t →
        (leaves : Sighting) → sighting_at taken t ≡ Some leaves → IsTrue (relays taken.policy leaves.from) → IsRelayedUp taken key_for t leaves before }
{}

/// All data that leaves from a listen address in a run was also sent by an act that has its
/// reasons: a peer sent it to the relayed address of a client, under its permission, and if it is
/// ChannelData by its channel.
pub fn data_to_clients()
    ensures { (taken : Taken) (key_for : KeyFor) → AreApart taken.policy → (list : List Step) → RunFrom (rules_for taken key_for) at_first list →
        AreRelayed taken key_for list }
{}

/// If everything that is checked passes, the headline holds.
pub fn headline()
    ensures { (taken : Taken) (key_for : KeyFor) (certificate : Certificate) → AreNumbered taken →
        Passes taken (rules_for taken key_for) certificate → Headline taken key_for certificate }
{}

/// Every run that explains the captures, of at most as many clients as a certificate has lanes, is
/// the glued list of a certificate without skews that conforms and has a spelling: to require a
/// certificate excludes no run. `read_policy` returns policies whose listen addresses are in no
/// relay range.
pub fn written()
    ensures { (taken : Taken) (key_for : KeyFor) (steps : List Step) → AreApart taken.policy → IsBounded taken →
        IsCaptureRun taken (rules_for taken key_for) steps → length (acting_pairs steps) ≤ MAX_LANES →
        (certificate : Certificate) × Conforms taken (rules_for taken key_for) certificate × (glued_steps certificate ≡ steps)
        × IsCertificate (said_by certificate) × (certificate.skews ≡ []) }
{}

/// This holds for the content of every intake, whose limits hold.
pub fn written_of_intake(intake: &Intake)
    ensures { let taken = taken_of intake.now in (key_for : KeyFor) (steps : List Step) →
        AreApart taken.policy → IsCaptureRun taken (rules_for taken key_for) steps → length (acting_pairs steps) ≤ MAX_LANES →
        (certificate : Certificate) × Conforms taken (rules_for taken key_for) certificate × (glued_steps certificate ≡ steps)
        × IsCertificate (said_by certificate) × (certificate.skews ≡ []) }
{
    written();
    sightings_are_bounded(intake);
}

/// There are captures that a run explains: a Binding request and its success response, whoever the
/// users are. And a certificate conforms to them, whose glued list is that run.
pub fn binding_is_explained()
    ensures run { (key_for : KeyFor) → IsCaptureRun binding_capture (rules_for binding_capture key_for) binding_steps }
    ensures certificate { (key_for : KeyFor) →
        (certificate : Certificate) × Conforms binding_capture (rules_for binding_capture key_for) certificate × (glued_steps certificate ≡ binding_steps) }
{}

/// And there are captures that none explains: those in which datagrams leave and none arrives.
pub fn nothing_leaves_unasked()
    ensures { (taken : Taken) (key_for : KeyFor) → ((id : SightId) (s : Sighting) → sighting_at taken id ≡ Some s → s.side ≡ Side.Leaves) →
        (id : SightId) (s : Sighting) → sighting_at taken id ≡ Some s → (steps : List Step) → IsCaptureRun taken (rules_for taken key_for) steps → ⊥ }
{}
