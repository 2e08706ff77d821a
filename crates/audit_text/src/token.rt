//! The words of a text: splitting at a separator, and decimal numbers.

ghost use Rattle.std.specs.Prelude.{◌≡◌, ℕ, ◌+◌, ◌≤◌, true, length, IfOk, IfSome, Ok, Err, SomeIff, MatchResult, option_map};
ghost use Rattle.std.specs.Fmt.{decimal};
ghost use Rattle.std.specs.List.{list_all};
ghost use Rattle.std.specs.Char.{is_ascii_digit};
ghost use Rattle.std.specs.Str.Parse.{digits_value};
ghost use Rattle.audit_text.specs.Token.{number_of, both_of, cut_of, halves_of, now_both};

/// The fault of a word of a text. Of a line's faults the lesser is reported: syntax is checked
/// before numeric ranges.
#[derive(Clone, Copy, Debug, PartialEq, Eq, PartialOrd, Ord)]
pub enum TokenFault {
    /// The word does not have the syntax that its place requires.
    Shape,
    /// A number has a leading zero, or is past its greatest value.
    Number,
}

/// Splits at the first separator: the bytes before it and those after it; None if there is none.
pub fn cut(bytes: &[u8], separator: u8) -> Option<(&[u8], &[u8])>
    ensures parts { option_map now_both result ≡ cut_of separator bytes.now }
    ensures shorter { IfSome result (λ p. length p.0.now + length p.1.now + 1 ≡ length bytes.now) }
{
    for (at, byte) in bytes.iter().enumerate() {
        if *byte == separator {
            return Some((&bytes[..at], &bytes[at + 1..]));
        }
    }
    None
}

/// Splits a word at the first separator, which the word must have.
pub fn halves(word: &[u8], separator: u8) -> Result<(&[u8], &[u8]), TokenFault>
    ensures parts { MatchResult result (λ p. halves_of separator word.now ≡ Ok (now_both p)) (λ e. halves_of separator word.now ≡ Err e) }
    ensures shorter { IfOk result (λ p. length p.0.now + length p.1.now + 1 ≡ length word.now) }
{
    match cut(word, separator) {
        Some(parts) => Ok(parts),
        None => Err(TokenFault::Shape),
    }
}

/// Whether each byte is a decimal digit.
fn are_digits(word: &[u8]) -> bool
    ensures { result ≡ list_all is_ascii_digit word.now }
{
    word.iter().all(|byte| byte.is_ascii_digit())
}

/// The number of the digits, if it is at most `most`.
fn value_up_to(digits: &[u8], most: u64) -> Option<u64>
    requires { list_all is_ascii_digit digits.now ≡ true }
    ensures { SomeIff result (digits_value 10 digits.now ≤ most) (digits_value 10 digits.now) }
{
    let mut value = 0u64;
    for byte in digits {
        let digit = u64::from(*byte - b'0');
        if digit > most || value > (most - digit) / 10 {
            return None;
        }
        value = value * 10 + digit;
    }
    Some(value)
}

/// The number of the word, or the word's fault.
fn read_number(word: &[u8], most: u64) -> Result<u64, TokenFault>
    ensures { result ≡ number_of most word.now }
{
    if word.is_empty() || !are_digits(word) {
        return Err(TokenFault::Shape);
    }
    if word.len() > 1 && word[0] == b'0' {
        return Err(TokenFault::Number);
    }
    match value_up_to(word, most) {
        Some(value) => Ok(value),
        None => Err(TokenFault::Number),
    }
}

/// The number, at most `most`, of a word in decimal without a leading zero.
pub fn number(word: &[u8], most: u64) -> Result<u64, TokenFault>
    ensures exact { result ≡ number_of most word.now }
    // The word is the spelling of the number that is read.
    ensures found { IfOk result (λ n. (n ≤ most) × (word.now ≡ decimal n)) }
    // A number is read from its spelling.
    ensures only { (n : ℕ) → n ≤ most → word.now ≡ decimal n → result ≡ Ok n }
{
    read_number(word, most)
}

/// Both words, or the fault of the two that is reported first.
pub fn both<A: Drop, B: Drop>(
    first: Result<A, TokenFault>,
    second: Result<B, TokenFault>,
) -> Result<(A, B), TokenFault>
    ensures { result ≡ both_of first second }
{
    match (first, second) {
        (Ok(first), Ok(second)) => Ok((first, second)),
        (Err(TokenFault::Shape), _) | (_, Err(TokenFault::Shape)) => Err(TokenFault::Shape),
        _ => Err(TokenFault::Number),
    }
}
