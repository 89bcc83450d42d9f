//! Decimal numbers with a sign and a point, read exactly as a whole number of units of the last
//! place that is kept. The digits before the point and those behind it are read apart, each below a
//! limit, so the number of units fits by construction.

ghost use Rattle.std.specs.Prelude.{◌≡◌, ◌+◌, ◌*◌, ◌^◌, ◌<◌, ◌≤◌, ℕ, ℤ, IfSome, MatchOption, MatchResult, length, take, IfOk, unsigned_abs};
ghost use Rattle.std.specs.List.{position_or_len};
ghost use Rattle.std.specs.Str.Parse.{AllDigits, digits_value};
ghost use Rattle.clu_text.specs.Decimals.{is_negative as negative_of, unsigned_of, is_decimal_point, before_point, behind_point, places_of, FitsPlaces, signed as signed_of, IsDecimal};

use crate::cut::after;
use crate::digit_runs::{are_digits, digits_below};
use memchr::memchr;

/// A decimal number as a whole number of units, of which ten to the power of `places` make one.
#[derive(Clone, Copy, Debug, PartialEq, Eq)]
pub struct Decimal {
    /// The number times ten to the power of `places`.
    pub units: i128,
    /// How many digits behind the point are kept, at most 9.
    pub places: u8,
}

/// The field is no decimal number, or has too many digits.
#[derive(Clone, Copy, Debug, PartialEq, Eq)]
pub struct BadNumber;

/// Reads a decimal number: a sign may stand, then digits, then maybe a point and digits, at least
/// one digit in all. Before the point at most 18 digits stand behind leading zeros. Without `cut` at
/// most 9 digits stand behind the point; with `cut`, at most 9, any number may stand there, and only
/// so many are kept, with no rounding. `BadNumber` where the form or a number of digits fails.
pub fn read_decimal(field: &[u8], cut: Option<u8>) -> Result<Decimal, BadNumber>
    requires { IfSome cut (λ k. k ≤ 9) }
    ensures value { MatchResult result (λ d. IsDecimal cut field.now d.units d.places)
        (λ _. (units : ℤ) (places : ℕ) → IsDecimal cut field.now units places → ⊥) }
    ensures small { IfOk result (λ d. (unsigned_abs d.units ≤ 10 ^ 27) × (d.places ≤ 9)) }
{
    let bytes = unsigned(field);
    let end = point(bytes);
    let whole = &bytes[..end];
    let fraction = after(bytes, end);
    if whole.is_empty() && fraction.is_empty() {
        return Err(BadNumber);
    }
    let Some(places) = kept_places(fraction, cut) else {
        return Err(BadNumber);
    };
    let Some(ones) = digits_below(whole, 1_000_000_000_000_000_000) else {
        return Err(BadNumber);
    };
    if !are_digits(fraction) {
        return Err(BadNumber);
    }
    let parts = kept_value(fraction, places);
    Ok(Decimal {
        units: units_of(is_negative(field), ones, parts, places),
        places,
    })
}

/// Whether the field begins with a minus.
fn is_negative(field: &[u8]) -> bool
    ensures { result ≡ negative_of field.now }
{
    match field {
        [b'-', ..] => true,
        _ => false,
    }
}

/// The field without its sign.
fn unsigned(field: &[u8]) -> &[u8]
    ensures { result.now ≡ unsigned_of field.now }
{
    match field {
        [b'-', rest @ ..] => rest,
        [b'+', rest @ ..] => rest,
        _ => field,
    }
}

/// The place of the first point, or the length.
fn point(bytes: &[u8]) -> usize
    ensures is { result ≡ position_or_len is_decimal_point bytes.now }
    ensures within { result ≤ length bytes.now }
{
    match memchr(b'.', bytes) {
        Some(end) => end,
        None => bytes.len(),
    }
}

/// How many decimal places are kept; `None` where there are too many.
fn kept_places(fraction: &[u8], cut: Option<u8>) -> Option<u8>
    requires { IfSome cut (λ k. k ≤ 9) }
    ensures { MatchOption result (FitsPlaces cut fraction.now → ⊥)
        (λ places. FitsPlaces cut fraction.now × (places ≡ places_of cut fraction.now) × (places ≤ 9)
        × (places ≤ length fraction.now)) }
{
    let len = fraction.len();
    match cut {
        Some(k) => {
            if len < k as usize {
                Some(len as u8)
            } else {
                Some(k)
            }
        }
        None => { if len > 9 { None } else { Some(len as u8) } }
    }
}

/// Ten to so many places.
fn power_of_ten(places: u8) -> u64
    requires { places ≤ 9 }
    ensures value { result ≡ 10 ^ places }
    ensures small { result ≤ 10 ^ 9 }
{
    10u64.pow(places as u32)
}

/// The value of the first digits of a fraction.
fn kept_value(fraction: &[u8], places: u8) -> u64
    requires digits { AllDigits 10 fraction.now }
    requires within { places ≤ length fraction.now }
    requires few { places ≤ 9 }
    ensures value { result ≡ digits_value 10 (take places fraction.now) }
    ensures small { result < 10 ^ 9 }
{
    match digits_below(&fraction[..places as usize], 1_000_000_000) {
        Some(value) => value,
        None => unreachable!(),
    }
}

/// The units of a decimal of so many ones and parts.
fn units_of(negative: bool, ones: u64, parts: u64, places: u8) -> i128
    requires ones { ones < 10 ^ 18 }
    requires parts { parts < 10 ^ 9 }
    requires places { places ≤ 9 }
    ensures value { result ≡ signed_of negative (ones * 10 ^ places + parts) }
    ensures small { unsigned_abs result ≤ 10 ^ 27 }
{
    let size = ones as i128 * power_of_ten(places) as i128 + parts as i128;
    if negative { -size } else { size }
}
