//! The words of a model.

ghost use Rattle.std.specs.Prelude.{◌≡◌, ◌<◌, ◌≤◌, [], Bool, List, Option, Some, length, true, All, IfOk, OnOk};
ghost use Rattle.std.specs.declared.alloc.Global.{Global as TheAlloc};
ghost use Rattle.std.specs.declared.vec.Vec.{Vec as TheVec};
ghost use Rattle.sb_lang.specs.Regex.{Regex};
ghost use Rattle.sb_word.specs.Words.{are_characters};
ghost use Rattle.sb_stack.specs.Stacked.{without_words};
ghost use Rattle.sb_stack.specs.Steps.{found as found_in};
ghost use Rattle.sb_stack.specs.declared.verdict.Verdict.TheVariants as verdicts;
ghost use Rattle.sb_decide.specs.Conjoined.{conjoined_at, forgotten, OthersSettled, IsChangedAt};
ghost use Rattle.sb_decide.specs.Deciding.{AreFilled};
ghost use Rattle.sb_decide.specs.Knowing.{Knows};
ghost use Rattle.sb_decide.specs.Ready.{IsReady, IsClosed};
ghost use Rattle.sb_decide.specs.Taking.{ArePut, IsPutAt, IsTakenOver, IsTakingOver, with_word, word_found};

use crate::conjuncts::{Conjuncts, Member};
use crate::decide::{Decider, Found};
use sb_lang::normal::normal_has_terms_words;
use sb_stack::Stack;
use sb_term::Serial;
use sb_word::Word;
use std::alloc::{AllocError, Global};
use std::mem;

impl Decider {
    /// The words of a model, the one of each constant at its serial: of a constant that occurs in an assertion of other
    /// structure the word that a search found, by serial, the empty one where it found none; and of each other constant
    /// the least one of its memberships. They are taken out of the stack, and the model is to put them back.
    ///
    /// Linear in the constants that are new or changed since the last model, and in those that occur in an assertion of
    /// other structure, with the characters that were found of these. `AllocError` only for want of memory; the words
    /// are lost then.
    pub fn close(
        &mut self,
        alloc: Global,
        stack: &mut Stack,
        found: &[Option<Word>],
    ) -> Result<Vec<Word>, AllocError>
        requires { IsReady self.old stack.old }
        ensures closed { IfOk result (λ words. IsClosed self.old stack.old found.now words.items) }
        ensures knows { IfOk result (λ words. (truths : TheVec Bool TheAlloc)
            → Knows self.new (found_in (verdicts.Sat words truths) stack.new)) }
        ensures taken { OnOk result (stack.new ≡ without_words stack.old) }
        ensures rest { without_words stack.new ≡ without_words stack.old }
        ensures store { self.new.store ≡ self.old.store }
    {
        normal_has_terms_words();
        let _assertions = stack.assertions();
        let mut words = self.take_found(alloc, stack)?;
        put_found(
            alloc,
            &mut self.constants,
            &mut self.changed,
            &mut words,
            self.spoken.as_slice(),
            found,
        )?;
        Ok(words)
    }

    /// The words of all constants by their memberships alone, but of those that were left to a search, which have their
    /// kept ones; they are taken out of the stack.
    fn take_found(&mut self, alloc: Global, stack: &mut Stack) -> Result<Vec<Word>, AllocError>
        requires ready { IsReady self.old stack.old }
        ensures over { IfOk result (λ words. IsTakenOver self.old self.new words.items) }
        ensures taken { OnOk result (stack.new ≡ without_words stack.old) }
        ensures rest { without_words stack.new ≡ without_words stack.old }
        ensures store { self.new.store ≡ self.old.store }
    {
        let declared = stack.declared();
        let mut words = stack.take_words();
        fill(alloc, &mut words, declared)?;
        let kept = mem::replace(&mut self.found, Vec::new(alloc));
        take_over(&mut self.constants, &mut words, kept);
        self.changed = mem::replace(&mut self.left, Vec::new(alloc));
        Ok(words)
    }
}

/// Words for so many constants, of which those that are new have the empty one.
fn fill(alloc: Global, words: &mut Vec<Word>, count: usize) -> Result<(), AllocError>
    requires { length words.old.items ≤ count }
    ensures { OnOk result (AreFilled count words.old.items words.new.items) }
{
    while words.len() < count {
        words.push(word_of(alloc, &[])?)?;
    }
    Ok(())
}

/// Gives each constant of which something was found its word. Takes no memory.
fn take_over(constants: &mut [Conjuncts], words: &mut [Word], mut found: Vec<Found>)
    requires long { length words.old ≡ length constants.old }
    requires within { All (λ one. one.serial.0 < length constants.old) found.items }
    ensures { (rs : List Regex) (ms : List (Option Member)) (left : List Serial)
        → IsTakingOver rs ms left constants.old constants.old words.old found.items
        → IsTakingOver rs ms left constants.old constants.new words.new [] }
{
    while let Some(one) = found.pop() {
        let place = one.serial.0 as usize;
        constants[place].settle();
        put_word(words, place, one.word);
    }
}

/// Puts a word at a place, if there is one.
fn put_word(words: &mut [Word], place: usize, word: Option<Word>)
    requires { place < length words.old }
    ensures { words.new ≡ with_word words.old place word }
{
    let Some(word) = word else {
        return;
    };
    words[place] = word;
}

/// Gives each of these constants the word that a search found of it; nothing else is known of it then.
fn put_found(
    alloc: Global,
    constants: &mut [Conjuncts],
    changed: &mut Vec<Serial>,
    words: &mut [Word],
    serials: &[Serial],
    found: &[Option<Word>],
) -> Result<(), AllocError>
    requires long { length words.old ≡ length constants.old }
    requires within { All (λ serial. serial.0 < length constants.old) serials.now }
    requires settled { OthersSettled changed.old.items constants.old }
    requires listed { All (λ other. other.0 < length constants.old) changed.old.items }
    ensures put { OnOk result (ArePut constants.old constants.new words.old words.new serials.now found.now) }
    ensures settled { OnOk result (OthersSettled changed.new.items constants.new) }
    ensures listed { OnOk result (All (λ other. other.0 < length constants.old) changed.new.items) }
{
    for serial in serials {
        put_one(alloc, constants, changed, words, *serial, found)?;
    }
    Ok(())
}

/// Gives a constant the word that a search found of it; then nothing else is known of it.
fn put_one(
    alloc: Global,
    constants: &mut [Conjuncts],
    changed: &mut Vec<Serial>,
    words: &mut [Word],
    serial: Serial,
    found: &[Option<Word>],
) -> Result<(), AllocError>
    requires within { serial.0 < length constants.old }
    requires room { serial.0 < length words.old }
    requires settled { OthersSettled changed.old.items constants.old }
    requires listed { All (λ other. other.0 < length constants.old) changed.old.items }
    ensures put { OnOk result (IsPutAt constants.old constants.new words.old words.new serial.0
        (word_found found.now serial.0)) }
    ensures settled { OnOk result (OthersSettled changed.new.items constants.new) }
    ensures listed { OnOk result (All (λ other. other.0 < length constants.old) changed.new.items) }
{
    let place = serial.0 as usize;
    let word = copied(alloc, found, place)?;
    forget(constants, changed, place)?;
    words[place] = word;
    Ok(())
}

/// The word that a search found of the constant at a place, the empty one where it found none.
fn copied(alloc: Global, found: &[Option<Word>], place: usize) -> Result<Word, AllocError>
    ensures exact { IfOk result (λ word. word ≡ word_found found.now place) }
    ensures characters { IfOk result (λ word. are_characters word ≡ true) }
{
    match found.get(place) {
        Some(Some(word)) => word_of(alloc, word.codes()),
        _ => word_of(alloc, &[]),
    }
}

/// The word of these characters.
fn word_of(alloc: Global, codes: &[u32]) -> Result<Word, AllocError>
    ensures exact { IfOk result (λ word. word ≡ codes.now) }
    ensures characters { IfOk result (λ word. are_characters word ≡ true) }
{
    match Word::from_codes(alloc, codes) {
        Ok(word) => Ok(word),
        Err(_) => Err(AllocError),
    }
}

/// Says of the constant at a place that nothing is known of its word.
fn forget(
    constants: &mut [Conjuncts],
    changed: &mut Vec<Serial>,
    place: usize,
) -> Result<(), AllocError>
    requires within { place < length constants.old }
    requires settled { OthersSettled changed.old.items constants.old }
    requires listed { All (λ other. other.0 < length constants.old) changed.old.items }
    ensures put { OnOk result
        (IsChangedAt constants.old constants.new place (forgotten (conjoined_at constants.old place))) }
    ensures settled { OnOk result (OthersSettled changed.new.items constants.new) }
    ensures listed { OnOk result (All (λ other. other.0 < length constants.old) changed.new.items) }
{
    let conjuncts = &mut constants[place];
    if conjuncts.is_settled() {
        changed.push(Serial(place as u64))?;
    }
    conjuncts.forget();
    Ok(())
}
