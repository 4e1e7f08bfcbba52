//! The reading of literals.

ghost use Rattle.std.specs.Prelude.{◌≡◌, None, IfOk, OnOk};
ghost use Rattle.sb_word.specs.Literals.{Literal};
ghost use Rattle.sb_word.specs.LiteralWords.{word_of_literal, first_bad};
ghost use Rattle.sb_word.specs.Refusals.{LiteralFault};
ghost use Rattle.sb_word.specs.Spelling.{WordFault};

use crate::escape::in_front;
use crate::literal::{literal_has_its_word, text_is_literal};
use crate::word::Word;
use std::alloc::{AllocError, AllocFailed, Global};
use thiserror::Error;

/// Why bytes are no literal.
#[derive(Debug, Drop, Clone, Copy, PartialEq, Eq, Error)]
pub enum LiteralError {
    /// The first byte that no literal holds stands at this place, counted from 0: one outside `0x20` to `0x7e`, or a
    /// quote that is none of a pair.
    #[error("the byte at place {0} stands in no literal")]
    BadByte(usize),
    #[error("out of memory")]
    NoMemory,
}

impl From<AllocError> for LiteralError {
    ghost use Rattle.sb_word.specs.declared.read.LiteralError.TheVariants.{NoMemory};

    ghost from_gives = { λ _ error. error ≡ NoMemory };

    fn from(_error: AllocError) -> LiteralError {
        LiteralError::NoMemory
    }
}

impl From<AllocFailed<u32>> for LiteralError {
    ghost use Rattle.sb_word.specs.declared.read.LiteralError.TheVariants.{NoMemory};

    ghost from_gives = { λ _ error. error ≡ NoMemory };

    fn from(_failed: AllocFailed<u32>) -> LiteralError {
        LiteralError::NoMemory
    }
}

/// The word of a literal, by the bytes between its quotes (SMT-LIB 2.6, section 3.1, and the escapes of the theory of
/// Unicode Strings): two quotes are one, `\ud₃d₂d₁d₀` and `\u{d}` to `\u{d₄d₃d₂d₁d₀}` with `d₄` at most 2 are the
/// character with these hexadecimal digits, of either case, and every other byte from `0x20` to `0x7e` is itself, also a
/// backslash that begins no escape. `BadByte(place)` exactly at the first byte that no literal holds. Linear.
pub fn read_literal(alloc: Global, bytes: &[u8]) -> Result<Word, LiteralError>
    ensures literal { IfOk result (λ word. Literal bytes.now word) }
    ensures word { IfOk result (λ word. word ≡ word_of_literal bytes.now) }
    ensures good { OnOk result (first_bad bytes.now ≡ None) }
    ensures refused { LiteralFault bytes.now result }
{
    text_is_literal();
    literal_has_its_word();
    read_word(alloc, bytes)
}

/// The word of a literal, by its bytes one behind another.
fn read_word(alloc: Global, bytes: &[u8]) -> Result<Word, LiteralError>
    ensures word { IfOk result (λ word. word ≡ word_of_literal bytes.now) }
    ensures good { OnOk result (first_bad bytes.now ≡ None) }
    ensures bad { WordFault bytes.now result }
{
    let mut codes = Vec::with_capacity(alloc, bytes.len())?;
    let mut place = 0;
    while place < bytes.len() {
        let Some(front) = in_front(&bytes[place..]) else {
            return Err(LiteralError::BadByte(place));
        };
        codes.push(front.code)?;
        place += front.length;
    }
    Ok(Word::of_characters(codes))
}
