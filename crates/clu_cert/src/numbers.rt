//! The numbers of the text: digits without a leading zero, and one sign at most. So each number has one
//! spelling, and a certificate one text.

ghost use Rattle.std.specs.Prelude.{pos, neg_ℤ, ◌∷◌, slice_index, MatchOption, ◌≡◌, ◌<◌, ◌≤◌, ◌^◌, ◌↔◌, IsTrue, length, unsigned_abs};
ghost use Rattle.std.specs.Fmt.{decimal, signed_decimal};
ghost use Rattle.clu_cert.specs.Reads.{ReadsSpelling};

use clu_text::{read_u32, read_u64, read_u128};

const LIMIT: u128 = 1 << 126;

/// Whether a zero stands before another byte.
fn has_leading_zero(field: &[u8]) -> bool
    ensures { IsTrue result ↔ ((1 < length field.now) × (slice_index field.now 0 ≡ 48)) }
{
    field.len() > 1 && field[0] == b'0'
}

/// The number of 32 bits that the field writes without a leading zero.
#[tactic(auto, using(crate::proofs::Plain::reads_u32))]
pub fn read_small(field: &[u8]) -> Option<u32>
    ensures { ReadsSpelling decimal (λ n. n < 2 ^ 32) field.now result }
{
    if has_leading_zero(field) {
        None
    } else {
        read_u32(field)
    }
}

/// The same of 64 bits.
#[tactic(auto, using(crate::proofs::Plain::reads_u64))]
pub fn read_long(field: &[u8]) -> Option<u64>
    ensures { ReadsSpelling decimal (λ n. n < 2 ^ 64) field.now result }
{
    if has_leading_zero(field) {
        None
    } else {
        read_u64(field)
    }
}

/// The same of 128 bits.
#[tactic(auto, using(crate::proofs::Plain::reads_u128))]
pub fn read_number(field: &[u8]) -> Option<u128>
    ensures { ReadsSpelling decimal (λ n. n < 2 ^ 128) field.now result }
{
    if has_leading_zero(field) {
        None
    } else {
        read_u128(field)
    }
}

/// What stands behind the minus sign.
fn after_minus(field: &[u8]) -> Option<&[u8]>
    ensures { MatchOption result (slice_index field.now 0 ≡ 45 → ⊥) (λ rest. field.now ≡ 45 ∷ rest.now) }
{
    match field {
        [b'-', rest @ ..] => Some(rest),
        _ => None,
    }
}

fn negative(size: u128) -> i128
    requires { size ≤ 2 ^ 126 }
    ensures { result ≡ neg_ℤ (pos size) }
{
    -(size as i128)
}

fn positive(size: u128) -> i128
    requires { size ≤ 2 ^ 126 }
    ensures { result ≡ pos size }
{
    size as i128
}

/// The whole number of at most 2^126 that the field writes.
pub fn read_whole(field: &[u8]) -> Option<i128>
    ensures { ReadsSpelling signed_decimal (λ z. unsigned_abs z ≤ 2 ^ 126) field.now result }
{
    match after_minus(field) {
        Some(rest) => {
            let Some(size) = read_number(rest) else {
                return None;
            };
            if size == 0 {
                return None;
            }
            if size > LIMIT {
                return None;
            }
            Some(negative(size))
        }
        None => {
            let Some(size) = read_number(field) else {
                return None;
            };
            if size > LIMIT {
                return None;
            }
            Some(positive(size))
        }
    }
}
