//! The texts of names (SMT-LIB 2.6, section 3.1).

ghost use Rattle.std.specs.Prelude.{◌≡◌, ◌==◌, ◌&&◌, ◌++◌, not, OnOk};
ghost use Rattle.std.specs.List.{list_any, flat_map};
ghost use Rattle.sb_reader.specs.Tokens as token;
ghost use Rattle.sb_script.specs.Names as meaning;

use sb_sorts::is_reserved;
use std::alloc::AllocError;

fn is_digit(b: u8) -> bool
    ensures { result ≡ token.is_digit b }
{
    matches!(b, b'0'..=b'9')
}

fn is_letter(b: u8) -> bool
    ensures { result ≡ token.is_letter b }
{
    matches!(b, b'A'..=b'Z' | b'a'..=b'z')
}

fn is_symbol_mark(b: u8) -> bool
    ensures { result ≡ list_any (λ mark. b == mark) token.symbol_marks }
{
    b"~!@$%^&*_-+=<>.?/".iter().any(|mark| b == *mark)
}

fn is_symbol_byte(b: u8) -> bool
    ensures { result ≡ token.is_symbol_byte b }
{
    is_letter(b) || is_digit(b) || is_symbol_mark(b)
}

fn all_symbol_bytes(bytes: &[u8]) -> bool
    ensures { result ≡ token.all_pass token.is_symbol_byte bytes.now }
{
    bytes.iter().all(|b| is_symbol_byte(*b))
}

fn is_simple_symbol(name: &[u8]) -> bool
    ensures { result ≡ token.is_simple_symbol name.now }
{
    match name {
        [] => false,
        [first, ..] => !is_digit(*first) && all_symbol_bytes(name),
    }
}

/// Whether the name can be read without bars.
fn stands_bare(name: &[u8]) -> bool
    ensures { result ≡ (token.is_simple_symbol name.now && not (meaning.is_reserved name.now)) }
{
    is_simple_symbol(name) && !is_reserved(name)
}

/// Appends a name, between bars where it could not be read otherwise. Linear in the name.
pub(crate) fn push_name(text: &mut Vec<u8>, name: &[u8]) -> Result<(), AllocError>
    ensures { OnOk result (text.new.items ≡ text.old.items ++ meaning.name_text name.now) }
{
    if stands_bare(name) {
        return text.extend_from_slice(name);
    }
    text.push(b'|')?;
    text.extend_from_slice(name)?;
    text.push(b'|')?;
    Ok(())
}

/// Appends a name within a text: each quote of it is doubled. Linear in the name.
pub(crate) fn push_name_in_text(text: &mut Vec<u8>, name: &[u8]) -> Result<(), AllocError>
    ensures { OnOk result (text.new.items ≡ text.old.items ++ meaning.name_in_text name.now) }
{
    if stands_bare(name) {
        return push_doubled(text, name);
    }
    text.push(b'|')?;
    push_doubled(text, name)?;
    text.push(b'|')?;
    Ok(())
}

/// Appends bytes, each quote doubled.
fn push_doubled(text: &mut Vec<u8>, bytes: &[u8]) -> Result<(), AllocError>
    ensures { OnOk result (text.new.items ≡ text.old.items ++ flat_map meaning.with_doubled_quote bytes.now) }
{
    for byte in bytes {
        if *byte == b'"' {
            text.push(b'"')?;
        }
        text.push(*byte)?;
    }
    Ok(())
}
