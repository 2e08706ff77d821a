//! Properties of a capture's text. These functions do nothing when they run.

ghost use Rattle.std.specs.Prelude.{◌≡◌, ◌++◌, ◌↔◌, ℕ, List, length, Ok};
ghost use Rattle.audit_pcapng.specs.declared.packet.Packet.{Packet};
ghost use Rattle.audit_pcapng.specs.declared.scope.Scope.{Scope};
ghost use Rattle.audit_pcapng.specs.declared.fault.CaptureFault.{CaptureFault};
ghost use Rattle.audit_pcapng.specs.declared.byte_order.ByteOrder.{ByteOrder};
ghost use Rattle.audit_pcapng.specs.Options.{options};
ghost use Rattle.audit_pcapng.specs.OptionLists.{AreOptions};
ghost use Rattle.audit_pcapng.specs.Faults.{IsOfBlocks};
ghost use Rattle.audit_pcapng.specs.Captures.{Reads, FirstFault};

/// A text has at most one list of packets, or at most one first fault with the packets before it.
pub fn one_reading()
    ensures list { (text : List ℕ) (p q : List Packet) (s t : Scope) (r u : List ℕ) →
        Reads text p s r → Reads text q t u → (p ≡ q) × (s ≡ t) × (r ≡ u) }
    ensures fault { (text : List ℕ) (p q : List Packet) (f g : CaptureFault) →
        FirstFault text p f → FirstFault text q g → (p ≡ q) × (f ≡ g) }
    ensures not_both { (text : List ℕ) (p q : List Packet) (s : Scope) (r : List ℕ) (f : CaptureFault) →
        Reads text p s r → FirstFault text q f → ⊥ }
{}

/// A longer text has the same first fault, and its packets begin with those of the shorter one.
pub fn kept_by_longer_texts()
    ensures fault { (text more : List ℕ) (p : List Packet) (f : CaptureFault) →
        FirstFault text p f → FirstFault (text ++ more) p f }
    ensures packets { (text more : List ℕ) (p q : List Packet) (s t : Scope) (r u : List ℕ) →
        Reads text p s r → Reads (text ++ more) q t u → (later : List Packet) × (q ≡ p ++ later) }
    ensures packets_before { (text more : List ℕ) (p q : List Packet) (s : Scope) (r : List ℕ) (f : CaptureFault) →
        Reads text p s r → FirstFault (text ++ more) q f → (later : List Packet) × (q ≡ p ++ later) }
{}

/// The first fault of a text is one that a block shows: never C1, C13 or C14.
pub fn faults_of_blocks()
    ensures { (text : List ℕ) (packets : List Packet) (fault : CaptureFault) →
        FirstFault text packets fault → IsOfBlocks fault }
{}

/// The options that are read are those that the list spells, up to its end.
pub fn options_as_spelled()
    ensures { (order : ByteOrder) (list : List ℕ) (found : List (ℕ × List ℕ)) →
        (options (length list) order list ≡ Ok found) ↔ AreOptions order list found }
{}
