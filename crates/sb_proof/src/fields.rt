//! The text of fields.

ghost use Rattle.std.specs.Prelude.{◌≡◌, ◌<◌, ℕ, List, ◌∷◌, ◌++◌, [], false, decimal, map, OnOk};
ghost use Rattle.std.specs.List.{flat_map, join_with_byte};
ghost use Rattle.std.specs.Fmt.{digit_glyph, signed_decimal};
ghost use Rattle.std.specs.String.{string_bytes};
ghost use Rattle.sb_rulebook.specs.Lines.{hexadecimal, range_text, ranges_text, word_text, literal_text, piece_text, variable_text, class_text, value_text};
ghost use Rattle.sb_proof.specs.Fields.{spaced};
ghost use Rattle.sb_proof.specs.Lines.{piece_in, variable_in, class_in, value_in};

use crate::atom::{Piece, Variable};
use crate::line::{Class, Value};
use itoa::Buffer;
use sb_lit::Lit;
use std::alloc::AllocError;
use std::fmt::Write;

fn put_number(text: &mut String, n: u64) -> Result<(), AllocError>
    ensures { OnOk result (string_bytes text.new ≡ string_bytes text.old ++ decimal n) }
{
    let mut buffer = Buffer::new();
    text.push_str(buffer.format(n))
}

fn put_integer(text: &mut String, n: i128) -> Result<(), AllocError>
    ensures { OnOk result (string_bytes text.new ≡ string_bytes text.old ++ signed_decimal n) }
{
    let mut buffer = Buffer::new();
    text.push_str(buffer.format(n))
}

fn put_hexadecimal(text: &mut String, n: u64) -> Result<(), AllocError>
    ensures { OnOk result (string_bytes text.new ≡ string_bytes text.old ++ hexadecimal n) }
{
    if n < 256 {
        return put_two_digits(text, n);
    }
    write!(text, "{n:x}")
}

/// Appends a number of at most two digits, as that of most characters is.
fn put_two_digits(text: &mut String, n: u64) -> Result<(), AllocError>
    requires { n < 256 }
    ensures { OnOk result (string_bytes text.new ≡ string_bytes text.old ++ hexadecimal n) }
{
    if n >= 16 {
        text.push_str(digit_text(n / 16 % 16))?;
    }
    text.push_str(digit_text(n % 16))
}

/// The digit of a number below 16.
fn digit_text(digit: u64) -> &'static str
    requires { digit < 16 }
    ensures { result.now ≡ digit_glyph false digit ∷ [] }
{
    match digit {
        0 => "0",
        1 => "1",
        2 => "2",
        3 => "3",
        4 => "4",
        5 => "5",
        6 => "6",
        7 => "7",
        8 => "8",
        9 => "9",
        10 => "a",
        11 => "b",
        12 => "c",
        13 => "d",
        14 => "e",
        _ => "f",
    }
}

fn put_character(text: &mut String, n: u64) -> Result<(), AllocError>
    ensures { OnOk result (string_bytes text.new ≡ string_bytes text.old ++ 46 ∷ hexadecimal n) }
{
    text.push('.')?;
    put_hexadecimal(text, n)
}

fn put_characters(text: &mut String, characters: &[u64]) -> Result<(), AllocError>
    ensures { OnOk result
        (string_bytes text.new
        ≡ string_bytes text.old ++ flat_map (λ n. 46 ∷ hexadecimal n) characters.now) }
{
    for character in characters {
        put_character(text, *character)?;
    }
    Ok(())
}

fn put_word(text: &mut String, characters: &[u64]) -> Result<(), AllocError>
    ensures { OnOk result (string_bytes text.new ≡ string_bytes text.old ++ word_text characters.now) }
{
    text.push_str("w")?;
    let Some((first, others)) = characters.split_first() else {
        return Ok(());
    };
    put_hexadecimal(text, *first)?;
    put_characters(text, others)
}

fn put_range(text: &mut String, range: (u64, u64)) -> Result<(), AllocError>
    ensures { OnOk result (string_bytes text.new ≡ string_bytes text.old ++ range_text range) }
{
    put_hexadecimal(text, range.0)?;
    text.push('-')?;
    put_hexadecimal(text, range.1)
}

fn put_next_range(text: &mut String, range: (u64, u64)) -> Result<(), AllocError>
    ensures { OnOk result (string_bytes text.new ≡ string_bytes text.old ++ 44 ∷ range_text range) }
{
    text.push(',')?;
    put_range(text, range)
}

fn put_next_ranges(text: &mut String, ranges: &[(u64, u64)]) -> Result<(), AllocError>
    ensures { OnOk result
        (string_bytes text.new ≡ string_bytes text.old ++ flat_map (λ r. 44 ∷ range_text r) ranges.now) }
{
    for range in ranges {
        put_next_range(text, *range)?;
    }
    Ok(())
}

pub(crate) fn put_ranges(text: &mut String, ranges: &[(u64, u64)]) -> Result<(), AllocError>
    ensures { OnOk result (string_bytes text.new ≡ string_bytes text.old ++ ranges_text ranges.now) }
{
    let Some((first, others)) = ranges.split_first() else {
        return Ok(());
    };
    put_range(text, *first)?;
    put_next_ranges(text, others)
}

/// A field, or the fields of one thing in a list of them.
pub(crate) trait Field {
    /// The text.
    ghost spelled: { Self → List ℕ };

    /// Appends the text.
    fn put(&self, text: &mut String) -> Result<(), AllocError>
        ensures put { OnOk result (string_bytes text.new ≡ string_bytes text.old ++ spelled self.now) };
}

/// Appends a space and the text of a field.
pub(crate) fn put_next<T: Field>(text: &mut String, field: &T) -> Result<(), AllocError>
    ensures { OnOk result (string_bytes text.new ≡ string_bytes text.old ++ 32 ∷ T.spelled field.now) }
{
    text.push(' ')?;
    field.put(text)
}

/// Appends the fields, with a space in front of each.
pub(crate) fn put_fields<T: Field>(text: &mut String, fields: &[T]) -> Result<(), AllocError>
    ensures { OnOk result (string_bytes text.new ≡ string_bytes text.old ++ spaced (map T.spelled fields.now)) }
{
    for field in fields {
        put_next(text, field)?;
    }
    Ok(())
}

/// Appends a word, and the fields, with a space in front of each.
pub(crate) fn put_named<T: Field>(
    text: &mut String,
    word: &str,
    fields: &[T],
) -> Result<(), AllocError>
    ensures { OnOk result
        (string_bytes text.new ≡ string_bytes text.old ++ join_with_byte 32 (word.now ∷ map T.spelled fields.now)) }
{
    text.push_str(word)?;
    put_fields(text, fields)
}

impl Field for u64 {
    ghost spelled = { λ n. decimal n };

    fn put(&self, text: &mut String) -> Result<(), AllocError> {
        put_number(text, *self)
    }
}

impl Field for i128 {
    ghost spelled = { λ n. signed_decimal n };

    fn put(&self, text: &mut String) -> Result<(), AllocError> {
        put_integer(text, *self)
    }
}

impl Field for Lit {
    ghost spelled = { literal_text };

    fn put(&self, text: &mut String) -> Result<(), AllocError> {
        text.push(if self.positive { '+' } else { '-' })?;
        put_number(text, self.atom)
    }
}

impl Field for Variable {
    ghost spelled = { λ x. variable_text (variable_in x) };

    fn put(&self, text: &mut String) -> Result<(), AllocError> {
        match self {
            Variable::Int(serial) => {
                text.push('i')?;
                put_number(text, *serial)
            }
            Variable::Length(serial) => {
                text.push('l')?;
                put_number(text, *serial)
            }
        }
    }
}

impl Field for (i128, Variable) {
    ghost spelled = { λ s. signed_decimal s.0 ++ 32 ∷ variable_text (variable_in s.1) };

    fn put(&self, text: &mut String) -> Result<(), AllocError> {
        put_integer(text, self.0)?;
        put_next(text, &self.1)
    }
}

impl Field for Piece {
    ghost spelled = { λ p. piece_text (piece_in p) };

    fn put(&self, text: &mut String) -> Result<(), AllocError> {
        match self {
            Piece::Constant(serial) => {
                text.push('v')?;
                put_number(text, *serial)
            }
            Piece::Word(characters) => put_word(text, characters.as_slice()),
        }
    }
}

impl Field for Class {
    ghost spelled = { λ k. class_text (class_in k) };

    fn put(&self, text: &mut String) -> Result<(), AllocError> {
        put_ranges(text, self.ranges.as_slice())?;
        text.push('>')?;
        put_number(text, self.target)
    }
}

impl Field for Value {
    ghost spelled = { λ v. value_text (value_in v) };

    fn put(&self, text: &mut String) -> Result<(), AllocError> {
        match self {
            Value::Text(characters) => put_word(text, characters.as_slice()),
            Value::Int(n) => put_integer(text, *n),
            Value::Truth(true) => text.push('t'),
            Value::Truth(false) => text.push('f'),
        }
    }
}
