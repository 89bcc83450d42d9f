//! Runs of decimal digits, which the readers of numbers share. The value so far stays below a limit
//! that the caller names, so no step can overflow.

ghost use Rattle.std.specs.Prelude.{◌≡◌, ◌<◌, ◌≤◌, ◌^◌, ◌↔◌, IsTrue, MatchOption};
ghost use Rattle.std.specs.Str.Parse.{AllDigits, digits_value};

/// The value of decimal digits alone, or of none; `None` where the field is something else or the
/// value is not below the limit.
#[tactic(auto, using(crate::proofs::Digits::value_more))]
pub(crate) fn digits_below(digits: &[u8], limit: u64) -> Option<u64>
    requires { (0 < limit) × (limit ≤ 10 ^ 18) }
    ensures { MatchOption result (AllDigits 10 digits.now → digits_value 10 digits.now < limit → ⊥)
        (λ value. AllDigits 10 digits.now × (value ≡ digits_value 10 digits.now) × (value < limit)) }
{
    let mut value: u64 = 0;
    for byte in digits {
        if !byte.is_ascii_digit() {
            return None;
        }
        value = value * 10 + u64::from(*byte - b'0');
        if value >= limit {
            return None;
        }
    }
    Some(value)
}

/// Whether each byte is a decimal digit, also where there is none.
pub(crate) fn are_digits(bytes: &[u8]) -> bool
    ensures { IsTrue result ↔ AllDigits 10 bytes.now }
{
    for byte in bytes {
        if !byte.is_ascii_digit() {
            return false;
        }
    }
    true
}
