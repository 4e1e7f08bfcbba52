//! Numerals, and integers as they are printed.

ghost use Rattle.std.specs.Prelude.{◌≡◌, ◌+◌, ◌-◌, ◌*◌, ◌^◌, ◌<◌, ◌≤◌, ◌++◌, codes, IfOk, MatchOption};
ghost use Rattle.std.specs.List.{list_all};
ghost use Rattle.std.specs.String.{string_bytes};
ghost use Rattle.sb_word.specs.Numerals as meaning;

use itoa::Buffer;
use std::alloc::{AllocError, Global};

/// The number of a numeral: `0`, or decimal digits of which the first is not `0` (SMT-LIB 2.6, section 3.1). `None`
/// exactly where the bytes are no numeral, or the number is above 2^64 - 1. Linear, and takes no memory.
pub fn read_numeral(bytes: &[u8]) -> Option<u64>
    ensures { result ≡ meaning.numeral_value bytes.now }
{
    if is_numeral(bytes) {
        number_of(bytes)
    } else {
        None
    }
}

fn is_digit(byte: u8) -> bool
    ensures { result ≡ meaning.is_digit byte }
{
    matches!(byte, b'0'..=b'9')
}

fn all_digits(bytes: &[u8]) -> bool
    ensures { result ≡ list_all meaning.is_digit bytes.now }
{
    bytes.iter().all(|byte| is_digit(*byte))
}

/// Whether the bytes are `0`, or digits without a leading zero.
fn is_numeral(bytes: &[u8]) -> bool
    ensures { result ≡ meaning.is_numeral bytes.now }
{
    match bytes {
        [] => false,
        [only] => is_digit(*only),
        [first, ..] => *first != b'0' && all_digits(bytes),
    }
}

/// The number that digits spell, where 64 bits hold it.
fn number_of(digits: &[u8]) -> Option<u64>
    ensures { MatchOption result (2 ^ 64 ≤ meaning.number_of digits.now)
        (λ n. (meaning.number_of digits.now ≡ n) × (n < 2 ^ 64)) }
{
    let mut number: u64 = 0;
    for digit in digits {
        let Some(next) = with_digit(number, *digit) else {
            return None;
        };
        number = next;
    }
    Some(number)
}

/// A number with one more digit, where 64 bits hold it.
fn with_digit(number: u64, digit: u8) -> Option<u64>
    ensures { MatchOption result (2 ^ 64 ≤ 10 * number + (digit - 48))
        (λ n. (n ≡ 10 * number + (digit - 48)) × (n < 2 ^ 64)) }
{
    let tens = number.checked_mul(10)?;
    tens.checked_add(u64::from(digit.saturating_sub(b'0')))
}

/// The text of an integer as a term: `5`, and `(- 5)`.
pub fn print_int(alloc: Global, n: i128) -> Result<String, AllocError>
    ensures { IfOk result (λ text. string_bytes text ≡ meaning.int_text n) }
{
    let mut buffer = Buffer::new();
    let digits = buffer.format(n.unsigned_abs());
    if n < 0 {
        negation(alloc, digits)
    } else {
        text_of(alloc, digits)
    }
}

/// The digits of a negative number, as a term.
fn negation(alloc: Global, digits: &str) -> Result<String, AllocError>
    ensures { IfOk result (λ text. string_bytes text ≡ codes "(- " ++ (digits.now ++ codes ")")) }
{
    let mut text = String::new(alloc);
    text.push_str("(- ")?;
    text.push_str(digits)?;
    text.push_str(")")?;
    Ok(text)
}

/// A text of the same bytes.
fn text_of(alloc: Global, digits: &str) -> Result<String, AllocError>
    ensures { IfOk result (λ text. string_bytes text ≡ digits.now) }
{
    let mut text = String::new(alloc);
    text.push_str(digits)?;
    Ok(text)
}
