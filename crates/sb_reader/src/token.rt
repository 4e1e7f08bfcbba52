//! The tokens of a script (SMT-LIB 2.6, section 3.1), one after another.

ghost use Rattle.std.specs.Prelude.{◌≡◌, ℕ, ◌+◌, ◌<◌, ◌≤◌, ◌==◌, not, false, length, IfSome};
ghost use Rattle.std.specs.List.{position_or_len};
ghost use Rattle.sb_reader.specs.Tokens.{is_blank, is_line_end, is_run_byte, is_bad_byte};
ghost use Rattle.sb_reader.specs.Lexing.{skip_from, closing_from, text_in, quoted_in, run_in, token_in, first_token, lexed_of};

/// A token, its bytes those of the script.
#[derive(Clone, Copy)]
pub(crate) enum Lexeme<'a> {
    Open,
    Close,
    /// The bytes between the quotes of a text.
    Text(&'a [u8]),
    /// The bytes between the bars of a quoted symbol.
    Quoted(&'a [u8]),
    /// A longest row of other bytes.
    Run(&'a [u8]),
}

fn is_blank(b: u8) -> bool
    ensures { result ≡ is_blank b }
{
    matches!(b, b'\t' | b'\n' | b'\r' | b' ')
}

pub(crate) fn is_line_end(b: u8) -> bool
    ensures { result ≡ is_line_end b }
{
    b == b'\n' || b == b'\r'
}

pub(crate) fn is_run_byte(b: u8) -> bool
    ensures { result ≡ is_run_byte b }
{
    !is_blank(b) && !matches!(b, b'(' | b')' | b'"' | b';' | b'|')
}

/// A byte that a text and a quoted symbol may not hold.
pub(crate) fn is_bad_byte(b: u8) -> bool
    ensures { result ≡ is_bad_byte b }
{
    (b < 32 && !is_blank(b)) || b == 127
}

/// The bytes behind the white space and the comments in front.
fn skip_gap(bytes: &[u8]) -> &[u8]
    ensures { result.now ≡ skip_from false bytes.now }
{
    let mut in_comment = false;
    for (i, b) in bytes.iter().enumerate() {
        if in_comment {
            in_comment = !is_line_end(*b);
        } else if *b == b';' {
            in_comment = true;
        } else if !is_blank(*b) {
            return &bytes[i..];
        }
    }
    &bytes[bytes.len()..]
}

/// The index of the quote that closes a text, of which the bytes behind the first quote are given. A quote
/// inside stands as a pair.
fn closing_quote(inside: &[u8]) -> Option<usize>
    ensures found { result ≡ closing_from 0 inside.now }
    ensures within { IfSome result (λ i. i < length inside.now) }
{
    let mut i = 0;
    while i < inside.len() {
        if inside[i] != b'"' {
            i += 1;
        } else if i + 1 < inside.len() && inside[i + 1] == b'"' {
            i += 2;
        } else {
            return Some(i);
        }
    }
    None
}

fn text_token(inside: &[u8]) -> Option<(Lexeme<'_>, &[u8])>
    ensures { lexed_of result ≡ text_in inside.now }
{
    let end = closing_quote(inside)?;
    Some((Lexeme::Text(&inside[..end]), &inside[end + 1..]))
}

fn bar_or_end(inside: &[u8]) -> usize
    ensures at { result ≡ position_or_len (λ b. b == 124) inside.now }
    ensures within { result ≤ length inside.now }
{
    inside
        .iter()
        .position(|b| *b == b'|')
        .unwrap_or(inside.len())
}

fn quoted_token(inside: &[u8]) -> Option<(Lexeme<'_>, &[u8])>
    ensures { lexed_of result ≡ quoted_in inside.now }
{
    let end = bar_or_end(inside);
    if end == inside.len() {
        return None;
    }
    Some((Lexeme::Quoted(&inside[..end]), &inside[end + 1..]))
}

fn run_end(bytes: &[u8]) -> usize
    ensures at { result ≡ position_or_len (λ b. not (is_run_byte b)) bytes.now }
    ensures within { result ≤ length bytes.now }
{
    bytes
        .iter()
        .position(|b| !is_run_byte(*b))
        .unwrap_or(bytes.len())
}

fn run_token(bytes: &[u8]) -> (Lexeme<'_>, &[u8])
    ensures { lexed_of (Some result) ≡ run_in bytes.now }
{
    let (run, behind) = bytes.split_at(run_end(bytes));
    (Lexeme::Run(run), behind)
}

/// The token that begins with the first of the bytes, and what is behind it.
fn token_here(bytes: &[u8]) -> Option<(Lexeme<'_>, &[u8])>
    ensures { lexed_of result ≡ token_in bytes.now }
{
    match bytes {
        [] => None,
        [b'(', behind @ ..] => Some((Lexeme::Open, behind)),
        [b')', behind @ ..] => Some((Lexeme::Close, behind)),
        [b'"', inside @ ..] => text_token(inside),
        [b'|', inside @ ..] => quoted_token(inside),
        _ => Some(run_token(bytes)),
    }
}

/// The first token and the bytes behind it, or `None` where no token is whole. Linear in the bytes up to
/// the token's end.
pub(crate) fn next_token(bytes: &[u8]) -> Option<(Lexeme<'_>, &[u8])>
    ensures lexed { lexed_of result ≡ first_token bytes.now }
    ensures shorter { IfSome result (λ token. length token.1.now < length bytes.now) }
{
    token_here(skip_gap(bytes))
}
