//! Words by the serials of their constants.

ghost use Rattle.std.specs.Prelude.{◌≡◌, ◌<◌, [], length, IfOk, IfNone, IfSome, OnOk};
ghost use Rattle.sb_lang.specs.Language.{language};
ghost use Rattle.sb_theory.specs.Words.{IsStore, RegexesGrow, regex_at};
ghost use Rattle.sb_theory.specs.Memberships.{word_at, IsPut};
ghost use Rattle.sb_theory.specs.Places.{is_above};

use sb_lang::derivative::nullable_has_empty_word;
use sb_regex::RegexId;
use sb_store::{Store, regexes_grow};
use sb_term::Serial;
use sb_trail::Entry;
use sb_word::Word;
use std::alloc::AllocError;

/// Whether the word that a constant has is in the language of a regex.
pub(crate) fn contains(
    store: &mut Store,
    words: &[Option<Word>],
    serial: Serial,
    regex: RegexId,
) -> Result<bool, AllocError>
    requires known { regex < length store.old.arena }
    requires store { IsStore store.old }
    ensures ok { IfOk result (λ b. b ≡ language (regex_at store.old.arena regex) (word_at words.now serial.0)) }
    ensures grows { RegexesGrow store.old store.new }
{
    regexes_grow();
    nullable_has_empty_word();
    match word_of(words, serial) {
        Some(word) => store.plain.matches(&mut store.arena, word, regex),
        None => Ok(store.arena.nullable(regex)),
    }
}

/// The word of a constant, if one was put. Takes constant time and no memory.
pub(crate) fn word_of(words: &[Option<Word>], serial: Serial) -> Option<&Word>
    ensures some { IfSome result (λ word. word.now ≡ word_at words.now serial.0) }
    ensures none { IfNone result (word_at words.now serial.0 ≡ []) }
{
    match words.get(serial.0 as usize) {
        Some(Some(word)) => Some(word),
        Some(None) | None => None,
    }
}

/// Puts the word of a constant.
pub(crate) fn put_word(
    words: &mut Vec<Option<Word>>,
    serial: Serial,
    word: Word,
) -> Result<(), AllocError>
    ensures { OnOk result (IsPut words.old.items words.new.items serial.0 word) }
{
    let place = serial.0 as usize;
    while words.len() <= place {
        words.push(None)?;
    }
    words[place] = Some(word);
    Ok(())
}

/// Whether the last entry's level is above this one.
pub(crate) fn is_above(entries: &[Entry], level: usize) -> bool
    ensures { result ≡ is_above level entries.now }
{
    match entries.last() {
        Some(entry) => entry.level() > level,
        None => false,
    }
}
