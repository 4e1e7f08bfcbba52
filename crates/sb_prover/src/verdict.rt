//! The line of a verdict.

ghost use Rattle.std.specs.Prelude.{◌≡◌, ◌<◌, ◌^◌, [], false, map, get_or, IfOk, OnOk};
ghost use Rattle.sb_script.specs.Steps.{line};
ghost use Rattle.sb_rulebook.specs.Lines.{text_of, verdict_line, said_sat};
ghost use Rattle.sb_proof.specs.Lines.{value_in, said_in};
ghost use Rattle.sb_proof.specs.Tapes.{with_bytes};
ghost use Rattle.sb_trace.specs.Putting.{CountsTapeFault};
ghost use Rattle.sb_stack.specs.Stacked.{live_in, live_constants};
ghost use Rattle.sb_prover.specs.Saying.{said_value};

use sb_lit::ClauseId;
use sb_proof::{Line, Said, Tape, TapeFault, Value};
use sb_stack::{LiveConstant, Stack};
use sb_term::Sort;
use sb_word::Word;
use std::alloc::{AllocError, Global};

/// Puts the line of a verdict.
pub(crate) fn say<L: Tape>(said: Said, tape: &mut L) -> Result<(), TapeFault>
    ensures told { OnOk result (L.Tape.told tape.new
        ≡ with_bytes (line (text_of (verdict_line (said_in said)))) (L.Tape.told tape.old)) }
    ensures counts { CountsTapeFault result (L.Tape.faults tape.old) (L.Tape.faults tape.new) }
{
    tape.put(&Line::Verdict(said))?;
    Ok(())
}

/// Puts the line of a verdict with these words and truth values, the one of each live constant at its serial. Linear in
/// the live constants and the characters of their words.
pub(crate) fn say_values<L: Tape>(
    alloc: Global,
    stack: &Stack,
    words: &[Word],
    truths: &[bool],
    tape: &mut L,
) -> Result<(), TapeFault>
    ensures told { OnOk result (L.Tape.told tape.new ≡ with_bytes (line (text_of (verdict_line
        (said_sat (map (said_value words.now truths.now) (live_constants stack.now)))))) (L.Tape.told tape.old)) }
    ensures counts { CountsTapeFault result (L.Tape.faults tape.old) (L.Tape.faults tape.new) }
{
    let constants = stack.constants()?;
    let values = values_of(alloc, &constants, words, truths)?;
    say(Said::Sat(values), tape)?;
    Ok(())
}

/// The number of a clause.
pub(crate) fn number_of(id: ClauseId) -> u64
    ensures value { result ≡ id.0 }
    ensures small { result < 2 ^ 64 }
{
    id.0
}

/// The values of these constants, in order: by its sort each has the word or the truth value at its serial. Linear in
/// them and their characters.
fn values_of(
    alloc: Global,
    constants: &[LiveConstant],
    words: &[Word],
    truths: &[bool],
) -> Result<Vec<Value>, AllocError>
    ensures { IfOk result (λ values. map value_in values.items
        ≡ map (said_value words.now truths.now) (map live_in constants.now)) }
{
    let mut values = Vec::with_capacity(alloc, constants.len())?;
    for constant in constants {
        values.push(value_of(alloc, words, truths, *constant)?)?;
    }
    Ok(values)
}

/// The value of a constant.
fn value_of(
    alloc: Global,
    words: &[Word],
    truths: &[bool],
    constant: LiveConstant,
) -> Result<Value, AllocError>
    ensures { IfOk result (λ value. value_in value ≡ said_value words.now truths.now (live_in constant)) }
{
    let place = constant.serial.0 as usize;
    match constant.sort {
        Sort::Bool => Ok(Value::Truth(truth_at(truths, place))),
        Sort::Int => Ok(Value::Int(0)),
        Sort::String | Sort::RegLan => Ok(Value::Text(characters_at(alloc, words, place)?)),
    }
}

/// The truth value at a place, false past the last.
pub(crate) fn truth_at(truths: &[bool], place: usize) -> bool
    ensures { result ≡ get_or truths.now place false }
{
    truths.get(place).copied().unwrap_or(false)
}

/// The characters of the word at a place, none past the last.
fn characters_at(alloc: Global, words: &[Word], place: usize) -> Result<Vec<u64>, AllocError>
    ensures { IfOk result (λ characters. characters.items ≡ get_or words.now place []) }
{
    match words.get(place) {
        Some(word) => characters_of(alloc, word),
        None => Ok(Vec::new(alloc)),
    }
}

/// The characters of a word.
fn characters_of(alloc: Global, word: &Word) -> Result<Vec<u64>, AllocError>
    ensures { IfOk result (λ characters. characters.items ≡ word.now) }
{
    let codes = word.codes();
    let mut characters = Vec::new(alloc);
    characters.reserve(codes.len())?;
    for code in codes {
        characters.push(*code as u64)?;
    }
    Ok(characters)
}
