//! Words and their literals; numerals, and integers as terms.

use sb_word::{
    CodesError, LiteralError, Word, print_int, print_literal, read_character, read_literal,
    read_numeral,
};
use std::alloc::{AllocError, Global};
use std::process::Abort;
use std::test::Fail;

/// Numbers that give a word, and the text of its literal.
static LITERALS: [(&[u32], &str); 10] = [
    (&[], ""),
    (&[97, 98], "ab"),
    (&[34], "\"\""),
    (&[92], "\\u{5c}"),
    (&[10], "\\u{a}"),
    (&[0], "\\u{0}"),
    (&[0x7e], "~"),
    (&[0x7f], "\\u{7f}"),
    (&[0x2ffff], "\\u{2ffff}"),
    (&[92, 117, 123, 51, 48, 48, 48, 48, 125], "\\u{5c}u{30000}"),
];

/// Numbers of which one is above the last character, and its place.
static NO_WORDS: [(&[u32], usize); 2] = [(&[0x30000], 0), (&[97, 0x2ffff, 0x30000, 0x40000], 2)];

/// Bytes between the quotes of a literal, and the characters of its word.
static READ: [(&[u8], &[u32]); 16] = [
    (b"", &[]),
    (b"~ a", &[0x7e, 32, 97]),
    (b"a\"\"b\"\"", &[97, 34, 98, 34]),
    (b"\\u{61}\\u0062", &[97, 98]),
    (b"\\uABcd\\u{a}", &[0xabcd, 10]),
    (b"\\u{2fFfF}", &[0x2ffff]),
    (b"\\u{00000}", &[0]),
    (b"\\u{30000}", &[92, 117, 123, 51, 48, 48, 48, 48, 125]),
    (b"\\u{}", &[92, 117, 123, 125]),
    (b"\\u{000061}", &[92, 117, 123, 48, 48, 48, 48, 54, 49, 125]),
    (b"\\u{12", &[92, 117, 123, 49, 50]),
    (b"\\u{6g}", &[92, 117, 123, 54, 103, 125]),
    (b"\\u006", &[92, 117, 48, 48, 54]),
    (b"\\u{\\u{61}", &[92, 117, 123, 97]),
    (b"\\\\u0061", &[92, 97]),
    (b"\\n\\", &[92, 110, 92]),
];

/// Bytes that are no literal, and the place of the first one that no literal holds.
static BAD: [(&[u8], usize); 8] = [
    (b"\n", 0),
    (b"a\x7f\x80", 1),
    (b"\"", 0),
    (b"\"\"\"", 2),
    (b"ab\"c\"", 2),
    (b"\\u0061\x1f", 6),
    (b"\\u{61\n}", 5),
    (b"\\u00\xff", 4),
];

/// Digits, and the character of one to five of them.
static DIGITS: [(&[u8], Option<u32>); 6] = [
    (b"2ffff", Some(0x2ffff)),
    (b"0000A", Some(10)),
    (b"30000", None),
    (b"", None),
    (b"000061", None),
    (b"g", None),
];

/// Bytes, and the number of the numeral that they are.
static NUMERALS: [(&[u8], Option<u64>); 10] = [
    (b"0", Some(0)),
    (b"7", Some(7)),
    (b"65536", Some(65536)),
    (b"18446744073709551615", Some(0xffff_ffff_ffff_ffff)),
    (b"18446744073709551616", None),
    (b"007", None),
    (b"00", None),
    (b"", None),
    (b"1a", None),
    (b"-5", None),
];

/// Integers, and their texts as terms.
static INTEGERS: [(i128, &str); 5] = [
    (0, "0"),
    (5, "5"),
    (-5, "(- 5)"),
    (
        0x7fff_ffff_ffff_ffff_ffff_ffff_ffff_ffff,
        "170141183460469231731687303715884105727",
    ),
    (
        -0x8000_0000_0000_0000_0000_0000_0000_0000,
        "(- 170141183460469231731687303715884105728)",
    ),
];

/// Expects the characters of the numbers' word to be them, and its literal to have this text.
fn expect_literal(
    rt: &impl Abort,
    alloc: Global,
    codes: &[u32],
    text: &str,
) -> Result<(), AllocError> {
    let Ok(word) = Word::from_codes(alloc, codes) else {
        return Err(AllocError);
    };
    let same = word.codes() == codes;
    let printed = print_literal(alloc, &word);
    drop(word);
    let printed = printed?;
    let told = printed.as_str() == text;
    drop(printed);
    assert!(rt; same && told);
    Ok(())
}

/// Expects the bytes to be the literal of the word of these characters.
fn expect_word(
    rt: &impl Abort,
    alloc: Global,
    bytes: &[u8],
    codes: &[u32],
) -> Result<(), LiteralError> {
    let word = read_literal(alloc, bytes)?;
    let same = word.codes() == codes;
    drop(word);
    assert!(rt; same);
    Ok(())
}

/// Words have their characters and print as literals, which are read.
fn expect_words(rt: &impl Abort, alloc: Global) -> Result<(), LiteralError> {
    for row in &LITERALS {
        expect_literal(rt, alloc, row.0, row.1)?;
    }
    for row in &READ {
        expect_word(rt, alloc, row.0, row.1)?;
    }
    Ok(())
}

/// Numbers that give no word, and bytes that no literal holds, are named; digits are read.
fn expect_others(rt: &impl Abort, alloc: Global) {
    for row in &NO_WORDS {
        let error = Word::from_codes(alloc, row.0).err();
        assert!(rt; error == Some(CodesError::NotACharacter(row.1)));
    }
    for row in &BAD {
        let error = read_literal(alloc, row.0).err();
        assert!(rt; error == Some(LiteralError::BadByte(row.1)));
    }
    for row in &DIGITS {
        assert!(rt; read_character(row.0) == row.1);
    }
}

/// Expects the integer to be printed as this text.
fn expect_integer(
    rt: &impl Abort,
    alloc: Global,
    number: i128,
    text: &str,
) -> Result<(), AllocError> {
    let printed = print_int(alloc, number)?;
    let told = printed.as_str() == text;
    drop(printed);
    assert!(rt; told);
    Ok(())
}

/// Numerals are read, and integers printed.
fn expect_numbers(rt: &impl Abort, alloc: Global) -> Result<(), AllocError> {
    for row in &NUMERALS {
        assert!(rt; read_numeral(row.0) == row.1);
    }
    for row in &INTEGERS {
        expect_integer(rt, alloc, row.0, row.1)?;
    }
    Ok(())
}

#[test]
fn words_and_their_literals(rt: HostRuntime) -> Result<(), Fail> {
    expect_words(&rt, rt.alloc())?;
    expect_others(&rt, rt.alloc());
    expect_numbers(&rt, rt.alloc())?;
    Ok(())
}
