//! Natural numbers of 64 and of 128 bits, from decimal digits and as decimal text. One loop with
//! checked arithmetic reads both widths.

ghost use Rattle.std.specs.Prelude.{◌≡◌, ◌++◌, ℕ, MatchOption, OnOk, OnErr};
ghost use Rattle.std.specs.Fmt.{decimal};
ghost use Rattle.clu_text.specs.Numbers.{IsU64, IsU128};

use itoa::Buffer;
use std::alloc::AllocError;

/// The value of one or more decimal digits, as `read_u32` reads them, below 2 to the power of 64.
pub fn read_u64(field: &[u8]) -> Option<u64>
    ensures { MatchOption result ((value : ℕ) → IsU64 field.now value → ⊥)
        (λ value. IsU64 field.now value) }
{
    let value = read_u128(field)?;
    u64::try_from(value).ok()
}

/// The same below 2 to the power of 128.
#[tactic(auto, using(crate::proofs::Digits::value_more))]
pub fn read_u128(field: &[u8]) -> Option<u128>
    ensures { MatchOption result ((value : ℕ) → IsU128 field.now value → ⊥)
        (λ value. IsU128 field.now value) }
{
    if field.is_empty() {
        return None;
    }
    let mut value: u128 = 0;
    for byte in field {
        if !byte.is_ascii_digit() {
            return None;
        }
        value = value
            .checked_mul(10)?
            .checked_add(u128::from(*byte - b'0'))?;
    }
    Some(value)
}

/// Appends the decimal text of a natural number, with no leading zero. Want of memory leaves `out` as
/// it was.
pub fn push_u128(out: &mut Vec<u8>, number: u128) -> Result<(), AllocError>
    ensures ok { OnOk result (out.new.items ≡ out.old.items ++ decimal number) }
    ensures err { OnErr result (out.new.items ≡ out.old.items) }
{
    let mut buffer = Buffer::new();
    out.extend_from_slice(buffer.format(number).as_bytes())
}
