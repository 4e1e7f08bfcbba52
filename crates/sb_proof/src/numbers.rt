//! Numbers in fields.

ghost use Rattle.std.specs.Prelude.{◌≡◌, ◌+◌, ◌*◌, ◌<◌, false, option_map};
ghost use Rattle.std.specs.Fmt.{digit_glyph};
ghost use Rattle.sb_word.specs.Literals.{hex_value, hex_number_from};
ghost use Rattle.sb_rulebook.specs.Lines.{hexadecimal};
ghost use Rattle.sb_rulebook.specs.Reading.{is_text, decimal_from, number, hexadecimal_number, negative, integer, literal, variable};
ghost use Rattle.sb_proof.specs.Lines.{variable_in};
ghost use Rattle.sb_proof.specs.Spelled.{decimal_value, if_small, small};

use crate::atom::Variable;
use itoa::Buffer;
use sb_lit::Lit;

/// The number in decimal digits, without leading zeros.
pub(crate) fn number(field: &[u8]) -> Option<u64>
    ensures { result ≡ number field.now }
{
    let n = spelled(field)?;
    let mut buffer = Buffer::new();
    if buffer.format(n).as_bytes() == field {
        Some(n)
    } else {
        None
    }
}

/// The number in lower-case hexadecimal digits, without leading zeros.
pub(crate) fn hexadecimal_number(field: &[u8]) -> Option<u64>
    ensures { result ≡ hexadecimal_number field.now }
{
    let n = hexadecimal_spelled(field)?;
    if is_hexadecimal(n, field) {
        Some(n)
    } else {
        None
    }
}

/// An integer: a number, with `-` before a negative one.
pub(crate) fn integer(field: &[u8]) -> Option<i128>
    ensures { result ≡ integer field.now }
{
    let (first, digits) = field.split_first()?;
    if *first == b'-' {
        negative(number(digits)?)
    } else {
        Some(i128::from(number(field)?))
    }
}

/// A literal: `+` or `-`, then the number of an atom.
pub(crate) fn literal(field: &[u8]) -> Option<Lit>
    ensures { result ≡ literal field.now }
{
    let (first, digits) = field.split_first()?;
    match *first {
        b'+' => literal_of(digits, true),
        b'-' => literal_of(digits, false),
        _ => None,
    }
}

/// A variable: `i` and the serial of an Int constant, or `l` and that of a String constant.
pub(crate) fn variable(field: &[u8]) -> Option<Variable>
    ensures { option_map variable_in result ≡ variable field.now }
{
    let (first, digits) = field.split_first()?;
    match *first {
        b'i' => Some(Variable::Int(number(digits)?)),
        b'l' => Some(Variable::Length(number(digits)?)),
        _ => None,
    }
}

fn literal_of(digits: &[u8], positive: bool) -> Option<Lit>
    ensures { result ≡ option_map (λ n. record { atom = n; positive = positive }) (number digits.now) }
{
    let atom = number(digits)?;
    Some(Lit { atom, positive })
}

fn negative(n: u64) -> Option<i128>
    ensures { result ≡ negative n }
{
    if n == 0 { None } else { Some(-i128::from(n)) }
}

/// Whether the field is what is printed of the number.
fn is_hexadecimal(n: u64, field: &[u8]) -> bool
    ensures { result ≡ is_text (hexadecimal n) field.now }
{
    let mut left = n;
    let mut unread = field;
    while let Some((last, front)) = unread.split_last() {
        if hexadecimal_glyph(left % 16) != *last {
            return false;
        }
        left /= 16;
        unread = front;
        if left == 0 {
            return unread.is_empty();
        }
    }
    false
}

fn hexadecimal_glyph(digit: u64) -> u8
    requires { digit < 16 }
    ensures { result ≡ digit_glyph false digit }
{
    if digit < 10 {
        b'0' + digit as u8
    } else {
        b'a' + (digit as u8 - 10)
    }
}

/// The number that decimal digits spell, where it is below 2^64.
fn spelled(field: &[u8]) -> Option<u64>
    ensures { result ≡ small (decimal_from 0 field.now) }
{
    let mut n: u64 = 0;
    for byte in field {
        n = behind(n, 10, decimal_digit(*byte)?)?;
    }
    Some(n)
}

fn hexadecimal_spelled(field: &[u8]) -> Option<u64>
    ensures { result ≡ small (hex_number_from 0 field.now) }
{
    let mut n: u64 = 0;
    for byte in field {
        n = behind(n, 16, hexadecimal_digit(*byte)?)?;
    }
    Some(n)
}

/// The number with a digit more, where it is below 2^64.
fn behind(n: u64, base: u64, digit: u64) -> Option<u64>
    ensures { result ≡ if_small (base * n + digit) }
{
    n.checked_mul(base)?.checked_add(digit)
}

fn decimal_digit(byte: u8) -> Option<u64>
    ensures { result ≡ decimal_value byte }
{
    match byte {
        b'0'..=b'9' => Some(u64::from(byte - b'0')),
        _ => None,
    }
}

#[tactic(auto, unfolding(sb_word::specs::Literals::hex_value))]
fn hexadecimal_digit(byte: u8) -> Option<u64>
    ensures { result ≡ hex_value byte }
{
    match byte {
        b'0'..=b'9' => Some(u64::from(byte - b'0')),
        b'a'..=b'f' => Some(u64::from(byte - b'a' + 10)),
        b'A'..=b'F' => Some(u64::from(byte - b'A' + 10)),
        _ => None,
    }
}
