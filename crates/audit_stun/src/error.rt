//! Error codes.

ghost use Rattle.std.specs.Prelude.{◌≡◌, ℕ, IfSome, Some};
ghost use Rattle.audit_stun.specs.ErrorCode.{IsErrorCode, error_code_of};

/// The error code in the value of an ERROR-CODE, as 438 (RFC 8489, section 14.8). None if it is
/// shorter than four bytes, its class is not 3 to 6 or its number is over 99.
#[tactic(auto, unfolding(crate::specs::ErrorCode::error_code_of))]
pub fn error_code(value: &[u8]) -> Option<u16>
    ensures value { result ≡ error_code_of value.now }
    ensures found { IfSome result (λ code. IsErrorCode value.now code) }
    ensures only { (code : ℕ) → IsErrorCode value.now code → result ≡ Some code }
{
    let [_, _, class, number, ..] = value else {
        return None;
    };
    let class = *class & 0x07;
    if class < 3 || class > 6 || *number > 99 {
        return None;
    }
    Some(u16::from(class) * 100 + u16::from(*number))
}
