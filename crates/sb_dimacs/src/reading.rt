//! Reading clauses in DIMACS.

use crate::failure::{Failure, done};
use sb_clauses::Engine;
use sb_lit::{Clause, Lit};
use std::alloc::{AllocError, Global};
use std::io::{BufRead, BufReader};

/// How many lines are read at most.
const MOST_LINES: u64 = 0x1_0000_0000;

/// Keeps the clauses of standard input, but in lines that begin with a `c`, a `p` or a `%`. The atom 1 is the atom 0 here.
/// Reads a line at a time, and keeps no other one.
pub fn read_input(rt: HostRuntime, engine: &mut Engine) -> Result<(), Failure> {
    match BufReader::new(rt.alloc(), rt.reader()) {
        Ok(mut input) => read(rt.alloc(), &mut input, engine),
        Err(_) => Err(Failure::NoMemory),
    }
}

/// Keeps the clauses that stand there.
fn read<R: BufRead>(alloc: Global, input: &mut R, engine: &mut Engine) -> Result<(), Failure> {
    let mut line = Vec::new(alloc);
    let mut literals = Vec::new(alloc);
    read_lines(alloc, input, &mut line, &mut literals, engine)
}

/// Reads each line into the bytes.
fn read_lines<R: BufRead>(
    alloc: Global,
    input: &mut R,
    line: &mut Vec<u8>,
    literals: &mut Vec<Lit>,
    engine: &mut Engine,
) -> Result<(), Failure> {
    for _ in 0..MOST_LINES {
        line.clear();
        match input.read_until(b'\n', line) {
            Ok(0) => return Ok(()),
            Ok(_) => read_line(alloc, line, literals, engine)?,
            Err(_) => return Err(Failure::Outside),
        }
    }
    Err(Failure::Input)
}

/// Reads the literals of a line. Where a clause ends it is kept, and the next one begins.
fn read_line(
    alloc: Global,
    line: &[u8],
    literals: &mut Vec<Lit>,
    engine: &mut Engine,
) -> Result<(), Failure> {
    if let [b'c' | b'p' | b'%', ..] = line {
        return Ok(());
    }
    for word in line.split(|byte| *byte == b' ' || *byte == b'\n') {
        if !word.is_empty() {
            read_word(alloc, word, literals, engine)?;
        }
    }
    Ok(())
}

/// Reads a literal, or the end of a clause.
fn read_word(
    alloc: Global,
    word: &[u8],
    literals: &mut Vec<Lit>,
    engine: &mut Engine,
) -> Result<(), Failure> {
    match literal_of(word) {
        Some(literal) if literal.atom > 0 => done(add_literal(literal, literals)),
        Some(_) => end_clause(alloc, literals, engine),
        None => Err(Failure::Input),
    }
}

/// The literal that a word is, with its atom as it stands there.
fn literal_of(word: &[u8]) -> Option<Lit> {
    let (positive, digits) = match word {
        [b'-', digits @ ..] => (false, digits),
        _ => (true, word),
    };
    let atom = number_of(digits)?;
    Some(Lit { atom, positive })
}

/// Adds a literal.
fn add_literal(literal: Lit, literals: &mut Vec<Lit>) -> Result<(), AllocError> {
    literals.push(Lit {
        atom: literal.atom.saturating_sub(1),
        positive: literal.positive,
    })?;
    Ok(())
}

/// Keeps the clause of the literals at level 0, and leaves none of them.
fn end_clause(alloc: Global, literals: &mut Vec<Lit>, engine: &mut Engine) -> Result<(), Failure> {
    let kept = keep(alloc, engine, literals, 0);
    literals.clear();
    done(kept)
}

/// Keeps the clause of these literals at a level.
pub fn keep(
    alloc: Global,
    engine: &mut Engine,
    literals: &[Lit],
    level: u64,
) -> Result<(), AllocError> {
    let clause = Clause::from_literals(Vec::from_slice(alloc, literals)?);
    let added = engine.add(&clause, level);
    drop(clause);
    match added {
        Ok(_) => Ok(()),
        Err(error) => Err(error),
    }
}

/// The number of the digits.
fn number_of(digits: &[u8]) -> Option<u64> {
    let mut number: u64 = 0;
    for digit in digits {
        if !digit.is_ascii_digit() {
            return None;
        }
        number = number
            .checked_mul(10)?
            .checked_add(u64::from(digit.wrapping_sub(b'0')))?;
    }
    Some(number)
}
