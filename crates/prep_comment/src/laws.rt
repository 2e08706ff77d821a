//! Laws about how a reader parses such a section.

ghost use Rattle.std.specs.Prelude.{ℕ, List, [], ◌∷◌, None, drop, take};
ghost use Rattle.audit_pcapng.specs.declared.scope.Scope.{Scope};
ghost use Rattle.prep_blocks.specs.Read.{IsRead};
ghost use Rattle.audit_pcapng.specs.declared.byte_order.ByteOrder.TheVariants.{Little};
ghost use Rattle.audit_pcapng.specs.OptionLists.{AreOptions};
ghost use Rattle.prep_comment.specs.Sections.{block_of, body_of, scope_behind};

/// It is a whole block after any others, it has no packet, and the interfaces before it stay
/// unchanged.
pub fn a_section_has_no_packet()
    ensures { (scope : Scope) (comment : List ℕ) → IsRead scope (block_of comment) None (scope_behind scope) }
{}

/// Its options, which begin after its head's 16 bytes, are the comment alone (code 1).
pub fn a_section_has_the_comment()
    ensures { (comment : List ℕ) → AreOptions Little (drop 16 (body_of (take 4096 comment))) ((1, take 4096 comment) ∷ []) }
{}
