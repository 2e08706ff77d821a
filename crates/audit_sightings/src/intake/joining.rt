//! Joins the files of two intakes.

ghost use Rattle.std.specs.Prelude.{◌≡◌, ◌++◌, IfOk, drop, max, vec_len};

use super::Intake;
use crate::fault::{IntakeFault, IntakeFaultKind};
use audit_model::{Listed, Policy};
use audit_pcapng::BlockReader;
use std::alloc::{AllocError, Global};

/// Copies the policy.
fn copy_of(alloc: Global, policy: &Policy) -> Result<Policy, AllocError>
    ensures { IfOk result (λ copy. copy ≡ policy.now) }
{
    Ok(Policy {
        listen: Listed::from(Vec::from_slice(alloc, policy.listen.as_slice())?),
        relay: Listed::from(Vec::from_slice(alloc, policy.relay.as_slice())?),
        skew: policy.skew,
        skews: Listed::from(Vec::from_slice(alloc, policy.skews.as_slice())?),
        grace: policy.grace,
        hold: policy.hold,
    })
}

impl Intake {
    ghost use Rattle.std.specs.Prelude.{◌≡◌, ◌⊎◌, ◌<◌, ◌+◌, ◌++◌, ℕ, List, [], length, replicate, vec_len, IfOk, IfErr, None, Some, Err};
    ghost use Rattle.audit_sightings.specs.ByInterface.{count_of};
    ghost use Rattle.audit_sightings.specs.Files.{Fed, not_fed, StandsFor};

    /// An intake of no files, by the same policy, that another thread may feed.
    pub fn beside(&self) -> Result<Intake, AllocError>
        ensures policy { IfOk result (λ intake. intake.policy ≡ self.now.policy) }
        ensures stands { IfOk result (λ intake. StandsFor intake []) }
    {
        Ok(Intake::new(self.alloc, copy_of(self.alloc, &self.policy)?))
    }

    /// Joins the files of this intake with those of another, by the same policy, whose numbers come
    /// next. Files of the other with a number that this one has are ignored. It takes no time for
    /// each sighting.
    ///
    /// It fails by V6 after a fault of a feed here, by V4 if there are over 16,777,216 sightings
    /// together, and by V5. If a feed of the other failed, every later call fails because of it.
    pub fn joined(self, other: Intake) -> Result<Intake, IntakeFault>
        requires { other.policy ≡ self.policy }
        ensures ok { (files others : List Fed) → StandsFor self files → StandsFor other (replicate (length files) not_fed ++ others)
            → IfOk result (λ both. StandsFor both (files ++ others)) }
        ensures policy { IfOk result (λ both. both.policy ≡ self.policy) }
        ensures failed { IfOk result (λ both. both.failed ≡ other.failed) }
        ensures again { (failed : ℕ) → self.failed ≡ Some failed →
            result ≡ Err (record { kind = IntakeFaultKind.Failed; file = failed }) }
        ensures refused { self.failed ≡ None → IfErr result (λ fault. (fault.file ≡ vec_len self.files) × ((fault.kind ≡ IntakeFaultKind.Memory)
            ⊎ ((fault.kind ≡ IntakeFaultKind.Limit) × (16777216 < count_of self.interfaces + count_of other.interfaces)))) }
    {
        if let Some(file) = self.failed {
            return Err(IntakeFault {
                kind: IntakeFaultKind::Failed,
                file,
            });
        }
        let file = self.files.len() as u32;
        let files = match readers(self.files, other.files) {
            Ok(files) => files,
            Err(_) => {
                return Err(IntakeFault {
                    kind: IntakeFaultKind::Memory,
                    file,
                });
            }
        };
        match self.interfaces.joined(other.interfaces, file) {
            Ok(interfaces) => Ok(Intake {
                policy: self.policy,
                files,
                interfaces,
                failed: other.failed,
                alloc: self.alloc,
            }),
            Err(kind) => Err(IntakeFault { kind, file }),
        }
    }
}

/// The readers of the files, and after them another's of the files whose numbers come next.
fn readers(
    files: Vec<BlockReader>,
    others: Vec<BlockReader>,
) -> Result<Vec<BlockReader>, AllocError>
    ensures items { IfOk result (λ both. both.items ≡ files.items ++ drop (vec_len files) others.items) }
    ensures len { IfOk result (λ both. vec_len both ≡ max (vec_len files) (vec_len others)) }
{
    let mut files = files;
    let mut others = others;
    if files.len() < others.len() {
        let mut behind = others.split_off(files.len())?;
        files.append(&mut behind)?;
    }
    Ok(files)
}
