//! Reads a policy text.

ghost use Rattle.std.specs.Prelude.{◌≡◌, ◌++◌, [], ℕ, List, false, IfOk, IfErr, MatchResult, Ok, Err};
ghost use Rattle.audit_text.specs.Reading.{UnlessMemory};
ghost use Rattle.audit_model.specs.Policy.{AreApart};
ghost use Rattle.audit_model.specs.PolicyFault.{is_memory};
ghost use Rattle.audit_model.specs.PolicyText.{policy_of, StandsFor};

use crate::policy::Policy;
use crate::policy_fault::PolicyFault;
use crate::policy_text::PolicyDraft;
use audit_text::TextReader;
use std::alloc::Global;
use std::marker::Model;

/// Reads a policy text that comes in pieces, split anywhere.
#[derive(Drop)]
pub struct PolicyReader {
    reader: TextReader<PolicyDraft>,
}

impl Model for PolicyReader {
    ghost use Rattle.audit_text.specs.Reading.{SoFar};
    ghost use Rattle.audit_model.specs.PolicyLines.{Said};

    ghost Value = { SoFar Said };

    ghost view = { λ reader. reader.reader };
}

impl PolicyReader {
    /// A reader of no bytes. Allocates no memory.
    pub fn new(alloc: Global) -> PolicyReader
        ensures { StandsFor result [] }
    {
        PolicyReader {
            reader: TextReader::new(alloc, PolicyDraft::new(alloc)),
        }
    }

    #[tactic(auto, unfolding(crate::specs::PolicyText::policy_of))]
    /// Reads the next piece of the text, or returns the first fault of the text so far. Every text
    /// that continues these bytes has the same fault, however it is split. After a fault the reader
    /// is consumed.
    pub fn feed(self, piece: &[u8]) -> Result<PolicyReader, PolicyFault>
        ensures ok { (text : List ℕ) → StandsFor self text → IfOk result (λ fed. StandsFor fed (text ++ piece.now)) }
        ensures err { (text : List ℕ) → StandsFor self text → (more : List ℕ) →
            IfErr result (λ fault. UnlessMemory (λ f. is_memory f.kind) fault (policy_of (text ++ piece.now ++ more))) }
    {
        Ok(PolicyReader {
            reader: self.reader.feed(piece)?,
        })
    }

    #[tactic(auto, unfolding(crate::specs::PolicyText::policy_of))]
    /// The policy of the text that ends here, or its first fault. Allocates no memory.
    pub fn finish(self) -> Result<Policy, PolicyFault>
        ensures reading { (text : List ℕ) → StandsFor self text → result ≡ policy_of text }
        ensures apart { (text : List ℕ) → StandsFor self text → IfOk result AreApart }
    {
        match self.reader.finish() {
            Ok(draft) => Ok(draft.policy()),
            Err(fault) => Err(fault),
        }
    }
}

/// The policy of a text, or its first fault: the kind, and the line from 1. It takes linear time in
/// the text.
pub fn read_policy(alloc: Global, text: &[u8]) -> Result<Policy, PolicyFault>
    ensures reading { MatchResult result (λ policy. policy_of text.now ≡ Ok policy)
        (λ fault. UnlessMemory (λ f. is_memory f.kind) fault (policy_of text.now)) }
    ensures apart { IfOk result AreApart }
{
    PolicyReader::new(alloc).feed(text)?.finish()
}
