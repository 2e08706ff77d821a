//! The plan of the command `cut`.

ghost use Rattle.std.specs.Prelude.{◌≡◌, ℕ, List, Some, IfOk, All, map};
ghost use Rattle.std.specs.List.{AllZip};
ghost use Rattle.prep_program.specs.CutRuns.{IsPlanOf};
ghost use Rattle.prep_program.specs.Hashings.{IsHashed};
ghost use Rattle.prep_program.specs.Recordings.{RecordedAll};

use crate::hashing::{Hashed, hash_captures};
use crate::list_totals::Notes;
use crate::recording::record_captures;
use crate::set_aside::CutRequest;
use crate::source::Source;
use crate::stop::Stop;
use crate::text::read_policy_text;
use audit_model::{Listed, Policy, read_policy};
use prep_cut::{Allocations, CauseNumber, Plan, Proposal};
use prep_reasons::{Proposed, decide};
use std::alloc::Global;
use std::mem;
use std::sync::atomic::{AtomicBool, Ordering};
use std::thread::{Threads, join_mut};

/// The plan of a cut.
#[derive(Drop)]
pub struct Planned<'a> {
    pub plan: Plan,
    pub notes: Notes,
    /// The proposals for the packets of each capture.
    pub proposals: Vec<Vec<Proposal>>,
    /// The number of groups of unread packets in them.
    pub groups: CauseNumber,
    pub hashed: Vec<Hashed<'a>>,
}

/// What the captures contain by a policy.
#[derive(Drop)]
struct Decided {
    allocations: Allocations,
    proposed: Proposed,
}

/// Reads the policy and the captures, and makes the proposals. A second thread hashes the captures
/// meanwhile.
pub fn plan_of<'a, R: Threads + AllocGlobal, S: Source>(
    rt: &R,
    request: &CutRequest<'a>,
    source: &mut S,
) -> Result<Planned<'a>, Stop>
    ensures kept { S.holds source.new ≡ S.holds source.old }
    ensures planned { (policy : List ℕ) (captures : List (List ℕ)) → S.holds source.old request.now.policy.now ≡ Some policy →
        AllZip (λ name text. S.holds source.old name.now ≡ Some text) request.now.captures.items captures →
        IfOk result (λ planned. IsPlanOf planned.plan request.now.stated policy captures) }
    ensures named { IfOk result (λ planned. map (λ one. one.name.now) planned.hashed.items ≡ map (λ name. name.now) request.now.captures.items) }
    ensures hashes { IfOk result (λ planned. All (λ one. IsHashed (S.holds source.old) one) planned.hashed.items) }
{
    let alloc = rt.alloc();
    let text = read_policy_text(alloc, source, request.policy)?;
    let policy = read_policy(alloc, &text)?;
    let planned = plan_by(rt, policy, request, source)?;
    Ok(planned)
}

/// Reads the captures, and makes the proposals by a policy. A second thread hashes the captures
/// meanwhile.
fn plan_by<'a, R: Threads + AllocGlobal, S: Source>(
    rt: &R,
    policy: Policy,
    request: &CutRequest<'a>,
    source: &mut S,
) -> Result<Planned<'a>, Stop>
    ensures kept { S.holds source.new ≡ S.holds source.old }
    ensures planned { (captures : List (List ℕ)) → AllZip (λ name text. S.holds source.old name.now ≡ Some text) request.now.captures.items captures →
        IfOk result (λ planned. (planned.plan.policy ≡ policy) × (planned.plan.stated ≡ request.now.stated)
        × RecordedAll captures planned.plan.policy request.now.stated.since planned.plan.allocations) }
    ensures named { IfOk result (λ planned. map (λ one. one.name.now) planned.hashed.items ≡ map (λ name. name.now) request.now.captures.items) }
    ensures hashes { IfOk result (λ planned. All (λ one. IsHashed (S.holds source.old) one) planned.hashed.items) }
{
    let mut second = source.second();
    let (hashed, decided) = read_both(rt, &policy, request, source, &mut second);
    source.end_second(second);
    let decided = decided?;
    let hashed = hashed?;
    Ok(planned_of(policy, request, decided, hashed))
}

/// Reads the captures, and makes the proposals. A second thread hashes the captures meanwhile, from
/// a second source.
fn read_both<'a, R: Threads + AllocGlobal, S: Source>(
    rt: &R,
    policy: &Policy,
    request: &CutRequest<'a>,
    source: &mut S,
    second: &mut S,
) -> (Result<Vec<Hashed<'a>>, Stop>, Result<Decided, Stop>)
    ensures kept { S.holds source.new ≡ S.holds source.old }
    ensures named { IfOk result.0 (λ all. map (λ one. one.name.now) all.items ≡ map (λ name. name.now) request.now.captures.items) }
    ensures hashes { IfOk result.0 (λ all. All (λ one. IsHashed (S.holds second.old) one) all.items) }
    ensures noted { (captures : List (List ℕ)) → AllZip (λ name text. S.holds source.old name.now ≡ Some text) request.now.captures.items captures →
        IfOk result.1 (λ decided. RecordedAll captures policy.now request.now.stated.since decided.allocations) }
{
    let alloc = rt.alloc();
    let is_over = AtomicBool::new(false);
    join_mut(
        rt,
        &mut || hash_captures(alloc, second, &request.captures, &is_over),
        &mut || decide_or_end(alloc, policy, request, source, &is_over),
    )
}

/// Reads the captures, and makes the proposals. On an error, the other reading is over.
fn decide_or_end<S: Source>(
    alloc: Global,
    policy: &Policy,
    request: &CutRequest<'_>,
    source: &mut S,
    is_over: &AtomicBool,
) -> Result<Decided, Stop>
    ensures kept { S.holds source.new ≡ S.holds source.old }
    ensures noted { (captures : List (List ℕ)) → AllZip (λ name text. S.holds source.old name.now ≡ Some text) request.now.captures.items captures →
        IfOk result (λ decided. RecordedAll captures policy.now request.now.stated.since decided.allocations) }
{
    let decided = decide_by(alloc, policy, request, source);
    if decided.is_err() {
        is_over.store(true, Ordering::SeqCst);
    }
    decided
}

/// Reads the captures, and makes the proposals.
fn decide_by<S: Source>(
    alloc: Global,
    policy: &Policy,
    request: &CutRequest<'_>,
    source: &mut S,
) -> Result<Decided, Stop>
    ensures kept { S.holds source.new ≡ S.holds source.old }
    ensures noted { (captures : List (List ℕ)) → AllZip (λ name text. S.holds source.old name.now ≡ Some text) request.now.captures.items captures →
        IfOk result (λ decided. RecordedAll captures policy.now request.now.stated.since decided.allocations) }
{
    let stated = request.stated;
    let mut records = record_captures(alloc, source, &request.captures, policy, stated)?;
    let allocations = mem::replace(&mut records.allocations, Allocations::new(alloc));
    let proposed = decide(alloc, policy, stated, records)?;
    Ok(Decided {
        allocations,
        proposed,
    })
}

/// The plan of what was decided.
fn planned_of<'a>(
    policy: Policy,
    request: &CutRequest<'_>,
    decided: Decided,
    hashed: Vec<Hashed<'a>>,
) -> Planned<'a>
    ensures plan { (captures : List (List ℕ)) → RecordedAll captures policy request.now.stated.since decided.allocations →
        (result.plan.policy ≡ policy) × (result.plan.stated ≡ request.now.stated)
        × RecordedAll captures result.plan.policy request.now.stated.since result.plan.allocations }
    ensures hashed { result.hashed ≡ hashed.entry }
{
    let Decided {
        allocations,
        proposed,
    } = decided;
    let Proposed {
        begin,
        lines,
        captures: proposals,
        causes,
        groups,
        beyond,
        lanes,
    } = proposed;
    Planned {
        plan: Plan {
            policy,
            stated: request.stated,
            allocations,
            pairs: causes,
            lines: Listed::from(lines),
        },
        notes: Notes {
            begin,
            beyond,
            lanes,
        },
        proposals,
        groups,
        hashed,
    }
}
