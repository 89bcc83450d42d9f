//! Lines of words and numbers, of which reports and what `err` is told are made. Each line is one call, so a report is
//! the list of its lines.

ghost use Rattle.std.specs.Prelude.{◌≡◌, ◌++◌, codes, OnOk};
ghost use Rattle.std.specs.Fmt.{decimal, signed_decimal};
ghost use Rattle.clu_cli.specs.Lines.{line};

use clu_text::{push_number, push_u128};
use std::alloc::AllocError;

/// A line of words.
pub(crate) fn push_line(out: &mut Vec<u8>, words: &str) -> Result<(), AllocError>
    ensures { OnOk result (out.new.items ≡ out.old.items ++ line words.now) }
{
    out.extend_from_slice(words.as_bytes())?;
    out.push(b'\n')?;
    Ok(())
}

/// A line of a word, which has its blank, and another one.
pub(crate) fn push_word(out: &mut Vec<u8>, words: &str, word: &str) -> Result<(), AllocError>
    ensures { OnOk result (out.new.items ≡ out.old.items ++ line (words.now ++ word.now)) }
{
    out.extend_from_slice(words.as_bytes())?;
    push_line(out, word)
}

/// A line of words, which have their blank, and a number.
pub(crate) fn push_signed(out: &mut Vec<u8>, words: &str, number: i128) -> Result<(), AllocError>
    ensures { OnOk result (out.new.items ≡ out.old.items ++ line (words.now ++ signed_decimal number)) }
{
    out.extend_from_slice(words.as_bytes())?;
    push_number(out, number)?;
    out.push(b'\n')?;
    Ok(())
}

/// A line of words, which have their blank, and a natural number.
pub(crate) fn push_counted(out: &mut Vec<u8>, words: &str, number: u128) -> Result<(), AllocError>
    ensures { OnOk result (out.new.items ≡ out.old.items ++ line (words.now ++ decimal number)) }
{
    out.extend_from_slice(words.as_bytes())?;
    push_u128(out, number)?;
    out.push(b'\n')?;
    Ok(())
}

/// The same of a natural number of 64 bits.
pub(crate) fn push_count(out: &mut Vec<u8>, words: &str, number: u64) -> Result<(), AllocError>
    ensures { OnOk result (out.new.items ≡ out.old.items ++ line (words.now ++ decimal number)) }
{
    push_counted(out, words, u128::from(number))
}

/// A line of words, which have their blank, and two natural numbers.
pub(crate) fn push_counts(
    out: &mut Vec<u8>,
    words: &str,
    one: u64,
    two: u64,
) -> Result<(), AllocError>
    ensures { OnOk result (out.new.items ≡ out.old.items
        ++ line (words.now ++ decimal one ++ codes " " ++ decimal two)) }
{
    out.extend_from_slice(words.as_bytes())?;
    push_u128(out, u128::from(one))?;
    push_count(out, " ", two)
}
