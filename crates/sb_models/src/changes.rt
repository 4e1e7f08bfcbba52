//! The words of the live constants, put in the place of those of the last model. A constant of another sort than String
//! has the empty word.

ghost use Rattle.std.specs.Prelude.{◌≡◌, ℕ, true, false, [], length, map, take, IfOk, OnOk, IfNone, IfSome};
ghost use Rattle.std.specs.List.{list_all};
ghost use Rattle.sb_word.specs.Words.{are_characters};
ghost use Rattle.sb_proof.specs.Lines.{value_in};
ghost use Rattle.sb_models.specs.Knowing.{word_at, AreEmptyBut};
ghost use Rattle.sb_models.specs.Tried.{is_word, text_in, texts_in, word_given, marks_of, also_marked, AreSame, Changes, IsPut, HasWordAt, IsConstantAt};

use crate::words::{is_at, word_in};
use sb_proof::Value;
use sb_stack::LiveConstant;
use sb_word::Word;
use std::alloc::{AllocError, Global};
use std::collections::HashSet;

fn empty_word(alloc: Global) -> Result<Word, AllocError>
    ensures { IfOk result (λ word. word ≡ []) }
{
    match Word::from_codes(alloc, &[]) {
        Ok(word) => Ok(word),
        Err(_) => Err(AllocError),
    }
}

/// Sees that there is a word at the place, where none is the empty one.
fn make_room(alloc: Global, words: &mut Vec<Word>, place: usize) -> Result<(), AllocError>
    ensures { OnOk result (HasWordAt place words.old.items words.new.items) }
{
    while words.len() <= place {
        words.push(empty_word(alloc)?)?;
    }
    Ok(())
}

fn mark(changed: &mut HashSet<u64>, serial: u64) -> Result<(), AllocError>
    ensures { OnOk result (marks_of changed.new ≡ also_marked (marks_of changed.old) serial) }
{
    changed.insert(serial)?;
    Ok(())
}

/// Puts the word of a constant at its serial, and marks the serial.
fn put_word(
    alloc: Global,
    words: &mut Vec<Word>,
    changed: &mut HashSet<u64>,
    constant: LiveConstant,
    word: Word,
) -> Result<(), AllocError>
    ensures put { OnOk result (IsPut constant.serial.0 word words.old.items words.new.items) }
    ensures changes { OnOk result
        (Changes words.old.items (marks_of changed.old) words.new.items (marks_of changed.new)) }
{
    let place = constant.serial.0 as usize;
    make_room(alloc, words, place)?;
    mark(changed, constant.serial.0)?;
    words[place] = word;
    Ok(())
}

/// Sees that the word of these numbers stands at the serial of a constant, and marks the serial where another one
/// stood there. Says whether they are a word.
fn put(
    alloc: Global,
    words: &mut Vec<Word>,
    changed: &mut HashSet<u64>,
    constant: LiveConstant,
    numbers: &[u64],
) -> Result<bool, AllocError>
    ensures word { IfOk result (λ known. known ≡ are_characters numbers.now) }
    ensures put { IfOk result
        (λ known. known ≡ true → IsPut constant.serial.0 numbers.now words.old.items words.new.items) }
    ensures changes { IfOk result (λ known. known ≡ true
        → Changes words.old.items (marks_of changed.old) words.new.items (marks_of changed.new)) }
{
    if is_at(words, constant.serial.0 as usize, numbers) {
        return Ok(true);
    }
    let Some(word) = word_in(alloc, numbers)? else {
        return Ok(false);
    };
    put_word(alloc, words, changed, constant, word)?;
    Ok(true)
}

/// The same of the word of a value, which is the empty one where the value is no text. Says whether it is one.
fn put_value(
    alloc: Global,
    words: &mut Vec<Word>,
    changed: &mut HashSet<u64>,
    constant: LiveConstant,
    value: &Value,
) -> Result<bool, AllocError>
    ensures word { IfOk result (λ known. known ≡ is_word (value_in value.now)) }
    ensures put { IfOk result (λ known. known ≡ true
        → IsPut constant.serial.0 (text_in (value_in value.now)) words.old.items words.new.items) }
    ensures changes { IfOk result (λ known. known ≡ true
        → Changes words.old.items (marks_of changed.old) words.new.items (marks_of changed.new)) }
{
    match value {
        Value::Text(numbers) => put(alloc, words, changed, constant, numbers.as_slice()),
        Value::Int(_) | Value::Truth(_) => put(alloc, words, changed, constant, &[]),
    }
}

/// Whether the constant stands at the place.
fn is_constant_at(constants: &[LiveConstant], place: usize, constant: LiveConstant) -> bool
    ensures { result ≡ true → IsConstantAt constants.now place constant }
{
    match constants.get(place) {
        Some(other) => *other == constant,
        None => false,
    }
}

/// How many constants both have in front.
fn same_front(one: &[LiveConstant], other: &[LiveConstant]) -> usize
    ensures { take result one.now ≡ take result other.now }
{
    for (place, constant) in one.iter().enumerate() {
        if !is_constant_at(other, place, *constant) {
            return place;
        }
    }
    one.len()
}

/// Gives the empty word to the constants behind the first so many.
fn clear_behind(
    alloc: Global,
    words: &mut Vec<Word>,
    changed: &mut HashSet<u64>,
    constants: &[LiveConstant],
    count: usize,
) -> Result<(), AllocError>
    requires { AreEmptyBut constants.now words.old.items }
    ensures empty { OnOk result (AreEmptyBut (take count constants.now) words.new.items) }
    ensures changes { OnOk result
        (Changes words.old.items (marks_of changed.old) words.new.items (marks_of changed.new)) }
{
    for place in count..constants.len() {
        put(alloc, words, changed, constants[place], &[])?;
    }
    Ok(())
}

/// Gives the constants the words that values are, one to each, the first of a serial last. Says whether all of them
/// are words.
fn put_all(
    alloc: Global,
    words: &mut Vec<Word>,
    changed: &mut HashSet<u64>,
    constants: &[LiveConstant],
    values: &[Value],
) -> Result<bool, AllocError>
    requires { length values.now ≡ length constants.now }
    ensures known { IfOk result (λ known. known ≡ list_all is_word (map value_in values.now)) }
    ensures words { IfOk result (λ known. known ≡ true → (serial : ℕ) → word_at words.new.items serial
        ≡ word_given constants.now (texts_in values.now) serial (word_at words.old.items serial)) }
    ensures changes { IfOk result (λ known. known ≡ true
        → Changes words.old.items (marks_of changed.old) words.new.items (marks_of changed.new)) }
{
    let mut place = values.len();
    while place > 0 {
        place -= 1;
        if !put_value(alloc, words, changed, constants[place], &values[place])? {
            return Ok(false);
        }
    }
    Ok(true)
}

/// Gives the live constants the words that values are, one to each, and the empty word to those of before that are
/// gone. Answers the serials whose word is another one now, or none where a value is no word. Linear in the constants
/// of both, and in the values; a word is made of each one that changes. Without an answer, and after want of memory,
/// the words may be any.
pub(crate) fn change(
    alloc: Global,
    words: &mut Vec<Word>,
    before: &[LiveConstant],
    live: &[LiveConstant],
    values: &[Value],
) -> Result<Option<HashSet<u64>>, AllocError>
    requires empty { AreEmptyBut before.now words.old.items }
    requires long { length values.now ≡ length live.now }
    ensures none { IfOk result (λ found. IfNone found (list_all is_word (map value_in values.now) ≡ false)) }
    ensures some { IfOk result (λ found. IfSome found (λ _. list_all is_word (map value_in values.now) ≡ true)) }
    ensures words { IfOk result (λ found. IfSome found (λ _. (serial : ℕ) → word_at words.new.items serial
        ≡ word_given live.now (texts_in values.now) serial [])) }
    ensures same { IfOk result (λ found. IfSome found
        (λ changed. AreSame words.old.items words.new.items (marks_of changed))) }
{
    let mut changed = HashSet::new(alloc);
    let count = same_front(before, live);
    clear_behind(alloc, words, &mut changed, before, count)?;
    if !put_all(alloc, words, &mut changed, live, values)? {
        return Ok(None);
    }
    Ok(Some(changed))
}
