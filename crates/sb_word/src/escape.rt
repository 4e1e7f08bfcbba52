//! What is spelled in front of the bytes of a literal: escapes, pairs of quotes, and bytes that stand for themselves.

ghost use Rattle.std.specs.Prelude.{◌≡◌, ◌<◌, ◌≤◌, true, length, take, Some, None, IfSome, MatchOption, option_map, option_and_then};
ghost use Rattle.sb_word.specs.Words.{is_character};
ghost use Rattle.sb_word.specs.Literals.{hex_value, hex_number_from};
ghost use Rattle.sb_word.specs.LiteralWords as meaning;
ghost use Rattle.sb_word.specs.Spelling.{spelled_in, IsFarBrace, IsFront, IsNoFront};

use crate::word::LAST_CHARACTER;

/// A character that is spelled in front of bytes.
#[derive(Clone, Copy)]
pub(crate) struct Spelled {
    pub(crate) code: u32,
    /// How many bytes spell it.
    pub(crate) length: usize,
}

/// The character that one to five hexadecimal digits of either case spell: none where there are others, fewer or more,
/// or where they spell a number above `0x2ffff`.
pub fn read_character(digits: &[u8]) -> Option<u32>
    ensures value { result ≡ meaning.character_of digits.now }
    ensures character { IfSome result (λ code. is_character code ≡ true) }
{
    if digits.is_empty() || digits.len() > 5 {
        return None;
    }
    let code = number_of(digits)?;
    if code <= LAST_CHARACTER {
        Some(code)
    } else {
        None
    }
}

/// The value of a hexadecimal digit of either case.
#[tactic(auto, unfolding(crate::specs::Literals::hex_value))]
fn hex_value(byte: u8) -> Option<u32>
    ensures value { result ≡ hex_value byte }
    ensures small { IfSome result (λ value. value < 16) }
{
    match byte {
        b'0'..=b'9' => Some(u32::from(byte - b'0')),
        b'a'..=b'f' => Some(u32::from(byte - b'a') + 10),
        b'A'..=b'F' => Some(u32::from(byte - b'A') + 10),
        _ => None,
    }
}

/// The number that hexadecimal digits spell.
fn number_of(digits: &[u8]) -> Option<u32>
    requires { length digits.now ≤ 5 }
    ensures { result ≡ hex_number_from 0 digits.now }
{
    let mut number = 0;
    for digit in digits {
        number = 16 * number + hex_value(*digit)?;
    }
    Some(number)
}

/// The place of the first closing brace, where it is one of the first six bytes.
fn near_brace(bytes: &[u8]) -> Option<usize>
    ensures before { MatchOption result (IsFarBrace bytes.now) (λ place. meaning.before_brace bytes.now ≡ Some (take place bytes.now)) }
    ensures near { IfSome result (λ place. place < length bytes.now) }
{
    let mut place = 0;
    while place < bytes.len() && place < 6 {
        if bytes[place] == b'}' {
            return Some(place);
        }
        place += 1;
    }
    None
}

/// An escape in braces, by what stands behind the opening one.
fn in_braces(bytes: &[u8]) -> Option<Spelled>
    ensures { option_map spelled_in result ≡ option_and_then meaning.in_braces (meaning.before_brace bytes.now) }
{
    let place = near_brace(bytes)?;
    let code = read_character(&bytes[..place])?;
    Some(Spelled {
        code,
        length: place + 4,
    })
}

/// An escape of four digits, by what stands behind the backslash and the u.
fn of_four(bytes: &[u8]) -> Option<Spelled>
    ensures { option_map spelled_in result ≡ meaning.of_four bytes.now }
{
    if bytes.len() < 4 {
        return None;
    }
    let code = number_of(&bytes[..4])?;
    Some(Spelled { code, length: 6 })
}

/// The escape in front of bytes.
fn escape_in_front(bytes: &[u8]) -> Option<Spelled>
    ensures { option_map spelled_in result ≡ meaning.escape_in_front bytes.now }
{
    match bytes {
        [b'\\', b'u', b'{', behind @ ..] => in_braces(behind),
        [b'\\', b'u', behind @ ..] => of_four(behind),
        _ => None,
    }
}

/// The pair of quotes in front of bytes, or the byte that stands for itself.
fn byte_in_front(bytes: &[u8]) -> Option<Spelled>
    requires some { 1 ≤ length bytes.now }
    requires no_escape { meaning.escape_in_front bytes.now ≡ None }
    ensures { MatchOption result (IsNoFront bytes.now) (λ spelled. IsFront bytes.now (spelled_in spelled)) }
{
    match bytes {
        [b'"', b'"', ..] => Some(Spelled {
            code: u32::from(b'"'),
            length: 2,
        }),
        [b'"', ..] => None,
        [byte @ b' '..=b'~', ..] => Some(Spelled {
            code: u32::from(*byte),
            length: 1,
        }),
        _ => None,
    }
}

/// What is spelled in front of bytes: none where the first byte is one that no literal holds.
pub(crate) fn in_front(bytes: &[u8]) -> Option<Spelled>
    requires { 1 ≤ length bytes.now }
    ensures { MatchOption result (IsNoFront bytes.now) (λ spelled. IsFront bytes.now (spelled_in spelled)) }
{
    match escape_in_front(bytes) {
        Some(spelled) => Some(spelled),
        None => byte_in_front(bytes),
    }
}
