//! Numbers of values as words.

ghost use Rattle.std.specs.Prelude.{◌≡◌, true, option_map, IfOk};
ghost use Rattle.sb_models.specs.Knowing.{word_at};
ghost use Rattle.sb_models.specs.Tried.{word_in, are_codes, IsWordOf};

use sb_word::{CodesError, Word};
use std::alloc::{AllocError, Global};

/// The numbers, none where one of them is too large for a character.
fn codes_in(alloc: Global, numbers: &[u64]) -> Result<Option<Vec<u32>>, AllocError>
    ensures { IfOk result (λ found. are_codes numbers.now (option_map (λ codes. codes.items) found)) }
{
    let mut codes = Vec::new(alloc);
    for number in numbers {
        let Ok(code) = u32::try_from(*number) else {
            return Ok(None);
        };
        codes.push(code)?;
    }
    Ok(Some(codes))
}

/// The word of these numbers, none where one of them is no character.
pub(crate) fn word_in(alloc: Global, numbers: &[u64]) -> Result<Option<Word>, AllocError>
    ensures { IfOk result (λ found. found ≡ word_in numbers.now) }
{
    let Some(codes) = codes_in(alloc, numbers)? else {
        return Ok(None);
    };
    match Word::from_codes(alloc, codes.as_slice()) {
        Ok(word) => Ok(Some(word)),
        Err(CodesError::NotACharacter(_)) => Ok(None),
        Err(CodesError::NoMemory) => Err(AllocError),
    }
}

/// Whether the characters are these numbers.
fn are_equal(codes: &[u32], numbers: &[u64]) -> bool
    ensures { result ≡ true → codes.now ≡ numbers.now }
{
    if codes.len() != numbers.len() {
        return false;
    }
    for (place, code) in codes.iter().enumerate() {
        if u64::from(*code) != numbers[place] {
            return false;
        }
    }
    true
}

/// Whether the word is that of these numbers.
fn is_word_of(word: &Word, numbers: &[u64]) -> bool
    ensures { result ≡ true → IsWordOf word.now numbers.now }
{
    are_equal(word.codes(), numbers)
}

/// Whether the word at the place, the empty one past the last, is that of these numbers.
pub(crate) fn is_at(words: &[Word], place: usize, numbers: &[u64]) -> bool
    ensures { result ≡ true → IsWordOf (word_at words.now place) numbers.now }
{
    match words.get(place) {
        Some(word) => is_word_of(word, numbers),
        None => numbers.is_empty(),
    }
}
