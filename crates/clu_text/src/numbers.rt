//! Numbers of 32 bits from decimal digits, and signed numbers as decimal text. The digits are read
//! below 2 to the power of 32 in a word of 64 bits; the text is that of `itoa`.

ghost use Rattle.std.specs.Prelude.{◌≡◌, ◌++◌, ℕ, MatchOption, OnOk, OnErr};
ghost use Rattle.std.specs.Fmt.{signed_decimal};
ghost use Rattle.clu_text.specs.Numbers.{IsU32};

use crate::digit_runs::digits_below;
use itoa::Buffer;
use std::alloc::AllocError;

/// The value of one or more decimal digits, leading zeros allowed; `None` where the field is
/// something else or the value doesn't fit 32 bits.
pub fn read_u32(field: &[u8]) -> Option<u32>
    ensures { MatchOption result ((value : ℕ) → IsU32 field.now value → ⊥)
        (λ value. IsU32 field.now value) }
{
    if field.is_empty() {
        return None;
    }
    let value = digits_below(field, 1 << 32)?;
    Some(value as u32)
}

/// Appends the decimal text of a number, with `-` before a negative one and no leading zero. Want of
/// memory leaves `out` as it was.
pub fn push_number(out: &mut Vec<u8>, number: i128) -> Result<(), AllocError>
    ensures ok { OnOk result (out.new.items ≡ out.old.items ++ signed_decimal number) }
    ensures err { OnErr result (out.new.items ≡ out.old.items) }
{
    let mut buffer = Buffer::new();
    out.extend_from_slice(buffer.format(number).as_bytes())
}
