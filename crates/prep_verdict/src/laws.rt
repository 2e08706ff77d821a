//! Laws about captures from which lines of a list excluded packets, by the definitions alone. No
//! program calls these.

ghost use Rattle.std.specs.Prelude.{◌≡◌, ℕ, List, Option, length, map};
ghost use Rattle.audit_files.specs.Judged.{IsAudited};
ghost use Rattle.audit_model.specs.declared.certificate.Certificate.{Certificate};
ghost use Rattle.audit_pcapng.specs.Captures.{IsCapture};
ghost use Rattle.prep_blocks.specs.declared.block.Block.{Block};
ghost use Rattle.prep_blocks.specs.Splitting.{IsWhole};
ghost use Rattle.prep_cut.specs.declared.plan.Plan.{Plan};
ghost use Rattle.audit_pcapng.specs.declared.packet.Packet.{Packet};
ghost use Rattle.prep_program.specs.declared.set_aside.CutRequest.{CutRequest};
ghost use Rattle.prep_program.specs.CutRuns.{IsCutRun};
ghost use Rattle.prep_program.specs.Making.{FileMade};
ghost use Rattle.prep_verdict.specs.Audited.{AreWhole, ExplainsTheRest};
ghost use Rattle.prep_verdict.specs.Calls.{texts_cut, ExplainsTheCall};
ghost use Rattle.prep_verdict.specs.Rest.{Capture, packets_in, stays, written};

/// The packets of a capture are those of its blocks.
pub fn captures_have_these_packets()
    ensures { (text : List ℕ) (blocks : List Block) → IsWhole text blocks → IsCapture text (packets_in blocks) }
{}

/// If the output for a capture is a capture, its packets are those of the capture that no line
/// excludes.
pub fn what_is_written_has_the_rest()
    ensures { (plan : Plan) (capture : Capture) (packets : List Packet) → IsWhole capture.text capture.blocks →
        IsCapture (written plan capture) packets → packets ≡ packets_in (stays plan capture) }
{}

/// If captures were cut by a plan, and the audit of the output reports `conforming`, which is
/// status 0, one run of the RFC 8656 server explains every datagram of the service in these
/// captures, except those of packets that a line of the list excludes.
pub fn the_rest_is_explained()
    ensures { (plan : Plan) (captures : List Capture) (policy users : List ℕ) (certificate : Certificate) (before after : Option (List ℕ)) →
        AreWhole captures → IsAudited policy users (map (written plan) captures) certificate before after 0 →
        ExplainsTheRest plan captures policy users certificate }
{}

/// If the audit of the files that a call of `cut` wrote reports `conforming`, which is status 0, by
/// the policy of that call, one run of the RFC 8656 server explains every datagram of the service
/// in the captures that were requested, except those of packets that a line of the call's list
/// excludes.
pub fn the_call_is_explained()
    ensures { (request : CutRequest) (policy users : List ℕ) (texts : List (List ℕ)) (files made : Option (List FileMade)) (unprinted printed unsaid said : Option (List ℕ)) (status : ℕ) (certificate : Certificate) (before after : Option (List ℕ)) →
        length request.captures.items ≡ length texts →
        (call : IsCutRun request policy texts files made unprinted printed unsaid said status) →
        IsAudited policy users (texts_cut call.plan call.to_cut call.cuts.captures) certificate before after 0 →
        ExplainsTheCall call.plan call.to_cut call.cuts.captures texts policy users certificate }
{}
