//! Worked values of the readers and writers of texts, as tables. Each table is walked by one test with one call a row,
//! since a test is proved as any function is.

use clu_text::{
    BadNumber, FieldIter, LineIter, fields, lines, push_number, push_u128, read_decimal, read_u32,
    read_u64, read_u128,
};
use std::alloc::{AllocError, Global};
use std::test::Fail;

const DECIMALS: [(&str, Option<u8>, Option<(i128, u8)>); 18] = [
    ("-1.50", None, Some((-150, 2))),
    ("1.239", Some(2), Some((123, 2))),
    (".5", None, Some((5, 1))),
    ("5.", None, Some((5, 0))),
    ("+.5", None, Some((5, 1))),
    ("-0", None, Some((0, 0))),
    (
        "000999999999999999999.999999999",
        None,
        Some((999999999999999999999999999, 9)),
    ),
    ("1.5", Some(0), Some((1, 0))),
    ("0.123456789012", Some(2), Some((12, 2))),
    (".", None, None),
    ("", None, None),
    ("-", None, None),
    ("1e5", None, None),
    ("1.2.3", None, None),
    ("1000000000000000000", None, None),
    ("0.1234567890", None, None),
    ("--1", None, None),
    ("1-", None, None),
];

/// A field, and its value in 32, 64 and 128 bits.
const WORDS: [(&str, Option<u32>, Option<u64>, Option<u128>); 10] = [
    ("", None, None, None),
    ("7a", None, None, None),
    ("-7", None, None, None),
    ("007", Some(7), Some(7), Some(7)),
    (
        "4294967295",
        Some(4294967295),
        Some(4294967295),
        Some(4294967295),
    ),
    ("4294967296", None, Some(4294967296), Some(4294967296)),
    (
        "18446744073709551615",
        None,
        Some(18446744073709551615),
        Some(18446744073709551615),
    ),
    (
        "18446744073709551616",
        None,
        None,
        Some(18446744073709551616),
    ),
    (
        "340282366920938463463374607431768211455",
        None,
        None,
        Some(340282366920938463463374607431768211455),
    ),
    ("340282366920938463463374607431768211456", None, None, None),
];

/// A signed number, a natural one, and the text of both, the second behind the first.
const TEXTS: [(i128, u128, &str); 4] = [
    (-70, 0, "-700"),
    (
        0,
        340282366920938463463374607431768211455,
        "0340282366920938463463374607431768211455",
    ),
    (
        170141183460469231731687303715884105727,
        7,
        "1701411834604692317316873037158841057277",
    ),
    (
        -170141183460469231731687303715884105728,
        0,
        "-1701411834604692317316873037158841057280",
    ),
];

fn next_line_is(left: &mut LineIter<'_>, number: u64, bytes: &[u8]) -> bool {
    match left.next() {
        Some(line) => line.number == number && line.bytes == bytes,
        None => false,
    }
}

fn next_field_is(left: &mut FieldIter<'_>, bytes: &[u8]) -> bool {
    match left.next() {
        Some(field) => field == bytes,
        None => false,
    }
}

fn are_three_lines(left: &mut LineIter<'_>) -> bool {
    next_line_is(left, 1, b"a")
        && next_line_is(left, 2, b"")
        && next_line_is(left, 3, b"b")
        && left.next().is_none()
}

fn are_two_fields(left: &mut FieldIter<'_>) -> bool {
    next_field_is(left, b"x") && next_field_is(left, b"y") && left.next().is_none()
}

#[test]
fn lines_end_at_line_feeds_and_fields_at_blanks(rt: HostRuntime) {
    assert!(rt; are_three_lines(&mut lines(b"a\r\n\nb")));
    assert!(rt; are_two_fields(&mut fields(b"  x\ty ")));
}

fn is_decimal(field: &[u8], cut: Option<u8>, want: Option<(i128, u8)>) -> bool {
    if cut.is_some_and(|k| k > 9) {
        return false;
    }
    match (read_decimal(field, cut), want) {
        (Ok(decimal), Some((units, places))) => decimal.units == units && decimal.places == places,
        (Err(BadNumber), None) => true,
        _ => false,
    }
}

fn is_word(field: &[u8], of_32: Option<u32>, of_64: Option<u64>, of_128: Option<u128>) -> bool {
    read_u32(field) == of_32 && read_u64(field) == of_64 && read_u128(field) == of_128
}

#[test]
fn numbers_are_read(rt: HostRuntime) {
    for (field, cut, want) in &DECIMALS {
        assert!(rt; is_decimal(field.as_bytes(), *cut, *want), "of {field}");
    }
    for (field, of_32, of_64, of_128) in &WORDS {
        assert!(rt;
            is_word(field.as_bytes(), *of_32, *of_64, *of_128),
            "of {field}"
        );
    }
}

fn is_text(alloc: Global, signed: i128, natural: u128, text: &str) -> Result<bool, AllocError> {
    let mut out = Vec::new(alloc);
    push_number(&mut out, signed)?;
    push_u128(&mut out, natural)?;
    Ok(out.as_slice() == text.as_bytes())
}

#[test]
fn numbers_are_written(rt: HostRuntime) -> Result<(), Fail> {
    for (signed, natural, text) in &TEXTS {
        assert!(rt; is_text(rt.alloc(), *signed, *natural, text)?, "of {text}");
    }
    Ok(())
}
