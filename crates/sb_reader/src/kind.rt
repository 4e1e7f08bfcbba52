//! The kinds of a run (SMT-LIB 2.6, section 3.1): numerals, other numbers, symbols and keywords.

ghost use Rattle.std.specs.Prelude.{◌≡◌, ◌==◌, ◌≤◌, length};
ghost use Rattle.std.specs.List.{list_any, position_or_len};
ghost use Rattle.sb_reader.specs.Tokens.{all_pass, some_pass, is_digit, is_letter, is_hex_digit, is_binary_digit, is_symbol_byte, is_numeral, is_decimal, is_hexadecimal_or_binary, is_simple_symbol, is_keyword, symbol_marks};

fn is_digit(b: u8) -> bool
    ensures { result ≡ is_digit b }
{
    b >= b'0' && b <= b'9'
}

fn is_letter(b: u8) -> bool
    ensures { result ≡ is_letter b }
{
    matches!(b, b'A'..=b'Z' | b'a'..=b'z')
}

fn is_hex_digit(b: u8) -> bool
    ensures { result ≡ is_hex_digit b }
{
    is_digit(b) || matches!(b, b'A'..=b'F' | b'a'..=b'f')
}

fn is_binary_digit(b: u8) -> bool
    ensures { result ≡ is_binary_digit b }
{
    b == b'0' || b == b'1'
}

fn is_symbol_mark(b: u8) -> bool
    ensures { result ≡ list_any (λ mark. b == mark) symbol_marks }
{
    b"~!@$%^&*_-+=<>.?/".iter().any(|mark| b == *mark)
}

fn is_symbol_byte(b: u8) -> bool
    ensures { result ≡ is_symbol_byte b }
{
    is_letter(b) || is_digit(b) || is_symbol_mark(b)
}

fn all_digits(bytes: &[u8]) -> bool
    ensures { result ≡ all_pass is_digit bytes.now }
{
    bytes.iter().all(|b| is_digit(*b))
}

fn some_digits(bytes: &[u8]) -> bool
    ensures { result ≡ some_pass is_digit bytes.now }
{
    !bytes.is_empty() && all_digits(bytes)
}

fn all_hex_digits(bytes: &[u8]) -> bool
    ensures { result ≡ all_pass is_hex_digit bytes.now }
{
    bytes.iter().all(|b| is_hex_digit(*b))
}

fn all_binary_digits(bytes: &[u8]) -> bool
    ensures { result ≡ all_pass is_binary_digit bytes.now }
{
    bytes.iter().all(|b| is_binary_digit(*b))
}

fn all_symbol_bytes(bytes: &[u8]) -> bool
    ensures { result ≡ all_pass is_symbol_byte bytes.now }
{
    bytes.iter().all(|b| is_symbol_byte(*b))
}

/// `0`, or digits without a leading zero.
pub(crate) fn is_numeral(bytes: &[u8]) -> bool
    ensures { result ≡ is_numeral bytes.now }
{
    match bytes {
        [] => false,
        [only] => is_digit(*only),
        [first, ..] => *first != b'0' && all_digits(bytes),
    }
}

fn point_or_end(bytes: &[u8]) -> usize
    ensures at { result ≡ position_or_len (λ b. b == 46) bytes.now }
    ensures within { result ≤ length bytes.now }
{
    bytes.iter().position(|b| *b == b'.').unwrap_or(bytes.len())
}

/// A numeral, a point, and one digit or more.
pub(crate) fn is_decimal(bytes: &[u8]) -> bool
    ensures { result ≡ is_decimal bytes.now }
{
    let point = point_or_end(bytes);
    if point == bytes.len() {
        return false;
    }
    is_numeral(&bytes[..point]) && some_digits(&bytes[point + 1..])
}

/// `#x` and hexadecimal digits, or `#b` and binary digits.
pub(crate) fn is_hexadecimal_or_binary(bytes: &[u8]) -> bool
    ensures { result ≡ is_hexadecimal_or_binary bytes.now }
{
    match bytes {
        [b'#', b'x', digits @ ..] => !digits.is_empty() && all_hex_digits(digits),
        [b'#', b'b', digits @ ..] => !digits.is_empty() && all_binary_digits(digits),
        _ => false,
    }
}

/// Letters, digits and marks, the first of them no digit.
pub(crate) fn is_simple_symbol(bytes: &[u8]) -> bool
    ensures { result ≡ is_simple_symbol bytes.now }
{
    match bytes {
        [] => false,
        [first, ..] => !is_digit(*first) && all_symbol_bytes(bytes),
    }
}

/// A colon, and behind it a simple symbol.
pub(crate) fn is_keyword(bytes: &[u8]) -> bool
    ensures { result ≡ is_keyword bytes.now }
{
    match bytes {
        [b':', name @ ..] => is_simple_symbol(name),
        _ => false,
    }
}
