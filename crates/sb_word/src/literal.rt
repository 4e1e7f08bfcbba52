//! The literals of words.

ghost use Rattle.std.specs.Prelude.{◌≡◌, ◌++◌, IfOk, OnOk};
ghost use Rattle.std.specs.String.{string_bytes};
ghost use Rattle.sb_word.specs.Literals.{character_text, literal_text, Literal, StandsForOneWord};
ghost use Rattle.sb_word.specs.LiteralWords.{LiteralHasItsWord, RestHasItsWord, TextIsLiteral};

use crate::word::Word;
use std::alloc::{AllocError, Global};
use std::fmt::Write;

/// The text between the quotes of the word's literal (SMT-LIB 2.6, section 3.1, and the escapes of the
/// theory of Unicode Strings): a character from `0x20` to `0x7e` as itself, but a quote doubled and a
/// backslash, like every other character, as `\u{h}`, with `h` in lower-case hexadecimal without leading
/// zeros. Linear in the length of the text.
pub fn print_literal(alloc: Global, word: &Word) -> Result<String, AllocError>
    ensures text { IfOk result (λ text. string_bytes text ≡ literal_text word.now) }
    ensures literal { IfOk result (λ text. Literal (string_bytes text) word.now) }
{
    let mut text = String::new(alloc);
    for code in word.codes() {
        push_character(&mut text, *code)?;
    }
    Ok(text)
}

/// Appends the text of a character.
fn push_character(text: &mut String, code: u32) -> Result<(), AllocError>
    ensures { OnOk result (string_bytes text.new ≡ string_bytes text.old ++ character_text code) }
{
    match u8::try_from(code) {
        Ok(b'"') => text.push_str("\"\""),
        Ok(byte @ b' '..=b'~') if byte != b'\\' => text.push(char::from(byte)),
        _ => write!(text, "\\u{{{code:x}}}"),
    }
}

/// The law that a literal stands for one word: where the same bytes are a literal of two words, the two
/// are equal. It does nothing.
pub fn literal_stands_for_one_word()
    ensures { StandsForOneWord }
{}

/// The law that bytes all of which a literal holds are a literal of the word that is computed from them. It does
/// nothing.
pub fn text_is_literal()
    ensures { TextIsLiteral }
{}

/// The law that a literal holds no bad byte, and stands for the word that is computed from it. It does nothing.
pub fn literal_has_its_word()
    ensures { LiteralHasItsWord }
{}

/// The law that the word behind so many bytes of a literal is the word of the bytes that are left. It does nothing.
pub fn rest_has_its_word()
    ensures { RestHasItsWord }
{}
