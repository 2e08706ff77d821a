//! Laws about which Allocates are kept and what is excluded after deletions. They do nothing at run
//! time.

ghost use Rattle.std.specs.Prelude.{◌≡◌, ◌⊎◌, ℕ, List, Option, Some, slice_get, true};
ghost use Rattle.audit_model.specs.declared.sighting.Side.TheVariants.{Arrives, Leaves};
ghost use Rattle.prep_blocks.specs.declared.block.Block.{Block};
ghost use Rattle.prep_cut.specs.declared.datagram.Datagram.{Datagram};
ghost use Rattle.prep_cut.specs.declared.plan.Plan.{Plan};
ghost use Rattle.prep_cut.specs.declared.transaction.Transaction.{Transaction};
ghost use Rattle.prep_cut.specs.Datagrams.{datagram_of_block};
ghost use Rattle.prep_cut.specs.Allocating.{is_noted};
ghost use Rattle.prep_cut.specs.Marks.{line_of};
ghost use Rattle.prep_cut.specs.Kept.{IsMoment, IsOfMoment};
ghost use Rattle.audit_model.specs.declared.address.Addr.{Addr};
ghost use Rattle.audit_model.specs.declared.pair.Pair.{Pair};
ghost use Rattle.prep_cut.specs.declared.reason.Reason.TheVariants.{Released};
ghost use Rattle.prep_cut.specs.Releasing.{AreReleased};
ghost use Rattle.prep_cut.specs.Bounded.{IsBehindRelease};
ghost use Rattle.prep_cut.specs.declared.reason.Reason.{Reason};
ghost use Rattle.prep_cut.specs.Heard.{IsOfSender};
ghost use Rattle.prep_cut.specs.Sending.{AreSenders};
ghost use Rattle.prep_cut.specs.declared.lease.Event.{Event};
ghost use Rattle.prep_cut.specs.declared.reason.Reason.TheVariants as reasons;
ghost use Rattle.prep_cut.specs.Allocating.{AreNoted};
ghost use Rattle.prep_cut.specs.Keeping.{HasLease, IsEarly, Keeps};
ghost use Rattle.prep_cut.specs.Lasting.{is_leased};

/// An Allocate request and its success response, both recorded in the plan's allocations, are
/// excluded by no line except those of the stated moments, whatever is proposed for them.
pub fn shown_allocates_stay()
    ensures success { (plan : Plan) (proposed : Option ℕ) (request success : Block) (asked granted : Datagram) (transaction : Transaction)
        → datagram_of_block plan.policy request ≡ Some asked → asked.side ≡ Arrives → asked.allocate ≡ Some transaction
        → datagram_of_block plan.policy success ≡ Some granted → granted.side ≡ Leaves → granted.allocate ≡ Some transaction
        → is_noted plan.allocations asked ≡ true → IsOfMoment plan (line_of plan proposed success) }
    ensures request { (plan : Plan) (proposed : Option ℕ) (request success : Block) (asked granted : Datagram) (transaction : Transaction)
        → datagram_of_block plan.policy request ≡ Some asked → asked.side ≡ Arrives → asked.allocate ≡ Some transaction
        → datagram_of_block plan.policy success ≡ Some granted → granted.side ≡ Leaves → granted.allocate ≡ Some transaction
        → is_noted plan.allocations granted ≡ true → IsOfMoment plan (line_of plan proposed request) }
{}

/// A line of released datagrams excludes only datagrams of the client or the address that it names,
/// after a Refresh success response with LIFETIME 0 to that client which the captures show; a
/// departure only within the time that the operator states. If no time is stated, such a line
/// excludes nothing. All recorded deletions are shown by the captures.
pub fn released_is_bounded()
    ensures { (plan : Plan) (captured : List Block) (line : ℕ) (block : Block) (pair : Pair) (relayed : Addr) (moment : ℕ) →
        AreReleased plan.policy plan.allocations captured → slice_get plan.lines line ≡ Some (Released pair relayed moment) →
        line_of plan (Some line) block ≡ Some line → IsBehindRelease plan captured pair relayed moment (datagram_of_block plan.policy block) }
{}

/// A datagram that a line excludes, other than by the stated moments, is of the client or the
/// address that the line names. If the line names a client, the captures show a datagram from that
/// client: whatever is proposed, nothing is excluded that goes to a 5-tuple which sends nothing. If
/// the operator states that the server started with the captures, or that no client uses TCP, TLS,
/// DTLS or IPv6, the lines of such clients exclude nothing.
pub fn strangers_stay()
    ensures { (plan : Plan) (captured : List Block) (line : ℕ) (block : Block) (reason : Reason) (datagram : Datagram) →
        AreSenders plan.policy plan.allocations captured → slice_get plan.lines line ≡ Some reason →
        datagram_of_block plan.policy block ≡ Some datagram → line_of plan (Some line) block ≡ Some line →
        IsMoment (Some reason) ⊎ IsOfSender plan captured reason datagram }
{}

/// Whatever is proposed: at a relayed address of which the captures show a lease, only `inside` and
/// the lines of stated moments exclude something. Of a client that was granted an allocation only
/// these, `inner` and `released` do, and the latter two exclude data alone. So no success response
/// of such a client is excluded.
pub fn leases_stay()
    ensures kept { (plan : Plan) (line : ℕ) (block : Block) (reason : Reason) (datagram : Datagram) → slice_get plan.lines line ≡ Some reason →
        datagram_of_block plan.policy block ≡ Some datagram → line_of plan (Some line) block ≡ Some line → Keeps plan.allocations reason datagram }
    ensures leased { (plan : Plan) (captured : List Block) (grant : Event) (relayed : Addr) (tid : List ℕ) (stamp : ℕ) →
        AreNoted plan.policy plan.allocations captured → HasLease plan.policy plan.allocations captured grant relayed tid stamp →
        is_leased plan.allocations relayed stamp ≡ true }
{}

/// `edge` excludes only departures before the hold and twice the greatest skew have passed after
/// the start of the captures, or after the stated moment. If the server started with the captures,
/// it excludes nothing.
pub fn edge_is_early()
    ensures { (plan : Plan) (line : ℕ) (block : Block) (datagram : Datagram) → slice_get plan.lines line ≡ Some reasons.Edge →
        datagram_of_block plan.policy block ≡ Some datagram → line_of plan (Some line) block ≡ Some line → IsEarly plan datagram }
{}
