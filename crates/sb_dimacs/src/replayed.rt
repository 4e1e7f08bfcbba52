//! The lines of a search, as a reader of proofs follows them.

use crate::failure::Failure;
use sb_clauses::Clauses;
use sb_hints::{KeptClauses, NotLearned};
use sb_lit::{ClauseId, Lit};
use sb_proof::{Line, Rule, read_line};
use sb_trail::CompactLit;
use std::alloc::{AllocError, Global};

/// Keeps the clauses, under their numbers.
pub fn copy(alloc: Global, clauses: &Clauses, kept: &mut KeptClauses) -> Result<(), AllocError> {
    for number in 0..clauses.len() {
        copy_one(alloc, clauses, ClauseId(number as u64), kept)?;
    }
    kept.leave_above(u64::MAX - 1);
    Ok(())
}

/// Keeps the clause of a number, or an empty one at the highest level.
fn copy_one(
    alloc: Global,
    clauses: &Clauses,
    id: ClauseId,
    kept: &mut KeptClauses,
) -> Result<(), AllocError> {
    let literals = literals_of(alloc, clauses.literals(id).unwrap_or_default())?;
    let added = kept.add(&literals, clauses.level(id).unwrap_or(u64::MAX));
    drop(literals);
    added
}

/// The literals of a clause.
fn literals_of(alloc: Global, kept: &[CompactLit]) -> Result<Vec<Lit>, AllocError> {
    let mut literals = Vec::new(alloc);
    add_literals(kept, &mut literals)?;
    Ok(literals)
}

/// Adds the literals of a clause.
fn add_literals(kept: &[CompactLit], literals: &mut Vec<Lit>) -> Result<(), AllocError> {
    for literal in kept {
        literals.push(literal.literal())?;
    }
    Ok(())
}

/// Whether each line follows from what is kept, and the clauses that are kept in the end are these, at the same levels.
pub fn replays(
    alloc: Global,
    kept: &mut KeptClauses,
    lines: &str,
    clauses: &Clauses,
) -> Result<bool, Failure> {
    for text in lines.lines() {
        if !follows(alloc, kept, text)? {
            return Ok(false);
        }
    }
    for number in 0..clauses.len() {
        if !is_same(clauses, kept, number as u64) {
            return Ok(false);
        }
    }
    Ok(clauses.len() == kept.len())
}

/// Whether both keep the same clause under a number, at the same level, or none.
fn is_same(clauses: &Clauses, kept: &KeptClauses, number: u64) -> bool {
    let id = ClauseId(number);
    let literals = clauses.literals(id).unwrap_or_default();
    let copied = kept.clause(number).unwrap_or_default();
    if clauses.level(id) != kept.level(number) || literals.len() != copied.len() {
        return false;
    }
    for (one, other) in literals.iter().zip(copied.iter()) {
        if one.literal() != *other {
            return false;
        }
    }
    true
}

/// Keeps the clause of a line's text.
fn follows(alloc: Global, kept: &mut KeptClauses, text: &str) -> Result<bool, Failure> {
    match read_line(alloc, text.as_bytes(), true)? {
        Ok(line) => {
            let done = keeps(kept, &line);
            drop(line);
            done
        }
        Err(_) => Ok(false),
    }
}

/// Keeps the clause of a line, if it is learned by its hints, a literal and its negation, or a lemma.
fn keeps(kept: &mut KeptClauses, line: &Line) -> Result<bool, Failure> {
    match line {
        Line::Learned(literals, hints) => keeps_learned(kept, literals, hints),
        Line::Rule(Rule::Gate, literals) => {
            kept.add(literals, 0)?;
            Ok(is_both(literals))
        }
        Line::Rule(Rule::Step, literals) => {
            kept.add(literals, 0)?;
            Ok(true)
        }
        _ => Ok(false),
    }
}

/// Keeps a clause, if it is learned by its hints.
fn keeps_learned(kept: &mut KeptClauses, literals: &[Lit], hints: &[u64]) -> Result<bool, Failure> {
    match kept.learned(literals, hints) {
        Ok(level) => {
            kept.add(literals, level)?;
            Ok(true)
        }
        Err(NotLearned::NoMemory) => Err(Failure::NoMemory),
        Err(_) => Ok(false),
    }
}

/// Whether these are a literal and its negation.
fn is_both(literals: &[Lit]) -> bool {
    match literals {
        [one, other] => *one == other.negated(),
        _ => false,
    }
}
