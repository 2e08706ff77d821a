//! Properties of every lane, by the definitions alone. No program calls these.

ghost use Rattle.std.specs.Prelude.{◌≡◌};
ghost use Rattle.audit_lane.specs.Content.{Content, Judgement};
ghost use Rattle.audit_lane.specs.Judged.{IsJudged, OneOutcome};

use crate::job::Job;

/// A lane is judged in one way.
pub fn one_judgement()
    ensures { (content : Content) (one other : Judgement) → IsJudged content one → IsJudged content other → one ≡ other }
{}

/// Each lane of a job is judged in one way.
pub fn one_outcome(job: &Job<'_>)
    ensures { OneOutcome job.now }
{
    let _lanes = job.len();
}
