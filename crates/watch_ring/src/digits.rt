//! Reads the fields of a name: an underscore and a fixed number of decimal digits.

ghost use Rattle.std.specs.Prelude.{◌≡◌, ◌≢◌, ◌<◌, ◌≤◌, ◌^◌, ◌++◌, ℕ, List, length, IfSome, IfNone, IsSomeAnd};
ghost use Rattle.watch_ring.specs.Names.{digits, field};

/// The number that decimal digits write, if the bytes are digits.
fn read_digits(bytes: &[u8]) -> Option<u64>
    requires { length bytes.now ≤ 14 }
    ensures found { IfSome result (λ n. (n < 10 ^ length bytes.now) × (bytes.now ≡ digits (length bytes.now) n)) }
    ensures none { IfNone result ((n : ℕ) → bytes.now ≢ digits (length bytes.now) n) }
{
    let mut number = 0u64;
    for byte in bytes {
        if !byte.is_ascii_digit() {
            return None;
        }
        number = number * 10 + u64::from(*byte - b'0');
    }
    Some(number)
}

/// Reads an underscore and a number of this many digits, and returns the number and what follows.
pub fn read_field(bytes: &[u8], width: usize) -> Option<(u64, &[u8])>
    requires { width ≤ 14 }
    ensures found { IfSome result (λ x. (x.0 < 10 ^ width) × (bytes.now ≡ field width x.0 ++ x.1.now)) }
    ensures only { (n : ℕ) (rest : List ℕ) → n < 10 ^ width → bytes.now ≡ field width n ++ rest
        → IsSomeAnd result (λ x. (x.0 ≡ n) × (x.1.now ≡ rest)) }
{
    let (first, bytes) = bytes.split_first()?;
    if *first != b'_' {
        return None;
    }
    let (written, rest) = bytes.split_at_checked(width)?;
    let number = read_digits(written)?;
    Some((number, rest))
}
