//! Properties of audited files, by the definitions alone. No program calls these.

ghost use Rattle.std.specs.Prelude.{ℕ, List, Option};
ghost use Rattle.audit_files.specs.Judged.{IsAudited};
ghost use Rattle.audit_model.specs.Policy.{AreApart};
ghost use Rattle.audit_model.specs.declared.certificate.Certificate.{Certificate};
ghost use Rattle.audit_whole.specs.Departures.{AreRelayed};
ghost use Rattle.audit_whole.specs.Glued.{glued_steps};

/// No listen address of the policy of audited files is in one of its relay ranges.
pub fn no_listen_address_is_a_relay()
    ensures { (policy users : List ℕ) (captures : List (List ℕ)) (certificate : Certificate) (before after : Option (List ℕ)) (status : ℕ) →
        (audited : IsAudited policy users captures certificate before after status) → AreApart audited.taken.policy }
{}

/// If the audit reports `conforming`, which is status 0, the headline's clause on departures from
/// relayed addresses, and on data from listen addresses, holds without a premise.
pub fn all_that_left_was_relayed()
    ensures { (policy users : List ℕ) (captures : List (List ℕ)) (certificate : Certificate) (before after : Option (List ℕ)) →
        (audited : IsAudited policy users captures certificate before after 0) → AreRelayed audited.taken audited.key_for (glued_steps certificate) }
{}
