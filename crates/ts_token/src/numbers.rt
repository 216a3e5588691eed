//! Numbers in words.

ghost use Rattle.std.specs.Prelude.{◌≡◌, ◌≢◌, ℤ, IfSome, IfNone, FitsSigned};
ghost use Rattle.std.specs.Int.{w64};
ghost use Rattle.std.specs.Fmt.{signed_decimal};
ghost use Rattle.ts_token.specs.Number.{is_digit, digits_from, unsigned_number, at_most, negative_number, number_of, ext_of};

use ts_base::Ext;

/// From `0` to `9`.
fn is_digit(b: u8) -> bool
    ensures { result ≡ is_digit b }
{
    b >= b'0' && b <= b'9'
}

/// The number that the bytes write, where all are digits and it is at most the limit.
fn digits_value(digits: &[u8], limit: u64) -> Option<u64>
    ensures { result ≡ at_most limit (digits_from 0 digits.now) }
{
    let mut value: u64 = 0;
    for b in digits {
        if !is_digit(*b) {
            return None;
        }
        value = value.checked_mul(10)?.checked_add(u64::from(*b - b'0'))?;
        if value > limit {
            return None;
        }
    }
    Some(value)
}

/// The number that one digit or more write without a leading zero, where it is at most the limit.
fn unsigned_number(digits: &[u8], limit: u64) -> Option<u64>
    ensures { result ≡ at_most limit (unsigned_number digits.now) }
{
    if digits.is_empty() || digits.len() > 1 && digits[0] == b'0' {
        return None;
    }
    digits_value(digits, limit)
}

/// The number whose digits these are after a `-`; there is no `-0`.
fn negative_number(digits: &[u8]) -> Option<i64>
    ensures { result ≡ negative_number (at_most 9223372036854775808 (unsigned_number digits.now)) }
{
    match unsigned_number(digits, i64::MAX as u64 + 1) {
        Some(n) if n > 0 => 0_i64.checked_sub_unsigned(n),
        _ => None,
    }
}

/// The number that an optional `-` and digits write.
fn signed_number(word: &[u8]) -> Option<i64>
    ensures { result ≡ number_of word.now }
{
    if word.is_empty() {
        return None;
    }
    if word[0] == b'-' {
        return negative_number(&word[1..]);
    }
    match unsigned_number(word, i64::MAX as u64) {
        Some(n) => Some(n as i64),
        None => None,
    }
}

/// The number that a word is: an optional `-` and decimal digits without a leading zero, within 64 signed bits.
/// None where the word is something else, and so exactly where it isn't what `{}` writes for an `i64`.
#[tactic(auto, using(crate::proofs::NumberTexts::read_is_written, crate::proofs::NumberTexts::none_is_written))]
pub fn number(word: &[u8]) -> Option<i64>
    ensures value { result ≡ number_of word.now }
    ensures written { IfSome result (λ n. word.now ≡ signed_decimal n) }
    ensures none { IfNone result ((n : ℤ) → FitsSigned w64 n → word.now ≢ signed_decimal n) }
{
    signed_number(word)
}

/// The number or infinity that a word is: `-inf`, `+inf`, or what `number` reads.
#[tactic(auto, unfolding(crate::specs::Number::ext_of))]
pub fn ext_of(word: &[u8]) -> Option<Ext>
    ensures { result ≡ ext_of word.now }
{
    if word == b"-inf".as_slice() {
        Some(Ext::NegInf)
    } else if word == b"+inf".as_slice() {
        Some(Ext::PosInf)
    } else {
        number(word).map(Ext::Int)
    }
}
