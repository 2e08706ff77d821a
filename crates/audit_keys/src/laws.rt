//! Properties of every message, by the definitions alone. No program calls these.

ghost use Rattle.std.specs.Prelude.{◌↔◌, ℕ, List};
ghost use Rattle.audit_keys.specs.Authentic.{IsAuthentic};
ghost use Rattle.audit_keys.specs.Before256.{HasNeither, WasSigned, WasAuthentic, md5_keys};
ghost use Rattle.audit_keys.specs.Keys.{KeyFor};
ghost use Rattle.audit_keys.specs.Signed.{IsSigned};

/// For a message with neither MESSAGE-INTEGRITY-SHA256 nor PASSWORD-ALGORITHM, the definitions
/// agree with those without SHA-256.
pub fn unchanged()
    ensures signed { (message key : List ℕ) → HasNeither message → IsSigned message key ↔ WasSigned message key }
    ensures authentic { (find : KeyFor) (message user : List ℕ) → HasNeither message → IsAuthentic find message user ↔ WasAuthentic (md5_keys find) message user }
{}
