//! Steps of the engine, of the order of decisions, and of what a reader of proofs keeps.

use crate::cases::{Reading, Waiting, Word, behind, literal, literals, number};
use crate::failure::{Failure, done};
use crate::text::Text;
use sb_activity::{Order, Phases};
use sb_clauses::{Clauses, Engine, Propagated};
use sb_hints::{KeptClauses, NotLearned};
use sb_lit::{ClauseId, Lit};
use sb_trail::Trail;
use std::alloc::{AllocError, Global};

/// Takes a step of the engine, or prints what is there.
pub fn step(
    engine: &mut Engine,
    word: Word,
    numbers: &[i64],
    out: &mut Text,
) -> Result<(), Failure> {
    match word {
        Word::Decide => decide(engine, numbers, out),
        Word::Assign => assign(engine, numbers),
        Word::Propagate => propagate(engine, out),
        Word::Settle => settle(engine, out),
        Word::Back | Word::Drop | Word::Forget | Word::Clear => {
            leave(engine, word, number(numbers, 0));
            Ok(())
        }
        Word::Trail | Word::Value | Word::Look => {
            print(engine, word, number(numbers, 0), out);
            Ok(())
        }
        _ => Err(Failure::Input),
    }
}

/// Takes literals back, or drops clauses.
fn leave(engine: &mut Engine, word: Word, first: u64) {
    match word {
        Word::Back => engine.backtrack(first as usize),
        Word::Drop => engine.leave_above(first),
        Word::Forget => engine.leave_all(),
        _ => engine.clear(),
    }
}

/// Prints what is there.
fn print(engine: &Engine, word: Word, first: u64, out: &mut Text) {
    match word {
        Word::Trail => print_trail(engine.trail(), out),
        Word::Value => print_value(engine.trail(), first, out),
        _ => print_kept(engine.clauses(), ClauseId(first), out),
    }
}

/// The literal that the first number is.
fn first_literal(numbers: &[i64]) -> Lit {
    match numbers {
        [first, ..] => literal(*first),
        [] => literal(0),
    }
}

/// Decides a literal whose atom has a place and no value, propagates, and prints what comes of it.
fn decide(engine: &mut Engine, numbers: &[i64], out: &mut Text) -> Result<(), Failure> {
    let literal = first_literal(numbers);
    let trail = engine.trail();
    if literal.atom >= trail.reserved() as u64 || trail.value(literal.atom).is_some() {
        return Err(Failure::Lost);
    }
    engine.decide(literal);
    settle(engine, out)
}

/// Adds a literal whose atom has a place and no value, with the number of a clause.
fn assign(engine: &mut Engine, numbers: &[i64]) -> Result<(), Failure> {
    let literal = first_literal(numbers);
    let trail = engine.trail();
    if literal.atom >= trail.reserved() as u64 || trail.value(literal.atom).is_some() {
        return Err(Failure::Lost);
    }
    engine.assign(literal, ClauseId(number(numbers, 1)));
    Ok(())
}

/// Propagates, and prints which clause is false, and how long the trail is.
fn propagate(engine: &mut Engine, out: &mut Text) -> Result<(), Failure> {
    if !engine.has_room() {
        return Err(Failure::Lost);
    }
    match engine.propagate() {
        Propagated::Conflict(id) => {
            out.add_number("clause ", id.0);
            out.add(" is false");
        }
        Propagated::Done => out.add("fine"),
    }
    out.add_number(", ", engine.trail().len() as u64);
    out.add(" literals\n");
    Ok(())
}

/// Propagates, and prints the values of all atoms from 1 on, or that a clause is false.
fn settle(engine: &mut Engine, out: &mut Text) -> Result<(), Failure> {
    if !engine.has_room() {
        return Err(Failure::Lost);
    }
    match engine.propagate() {
        Propagated::Conflict(_) => out.add("a clause is false\n"),
        Propagated::Done => print_values(engine.trail(), out),
    }
    Ok(())
}

/// Prints the values of all atoms from 1 on.
fn print_values(trail: &Trail, out: &mut Text) {
    for atom in 1..trail.reserved() as u64 {
        match trail.value(atom) {
            Some(true) => out.add("+"),
            Some(false) => out.add("-"),
            None => out.add("."),
        }
    }
    out.add("\n");
}

/// Prints the literals of a clause.
pub fn print_clause(clauses: &Clauses, id: ClauseId, out: &mut Text) {
    match clauses.literals(id) {
        Some(literals) => {
            for kept in literals {
                out.add_literal(kept.literal());
            }
        }
        None => out.add(" none"),
    }
}

/// Prints the clause of a number, and its level.
fn print_kept(clauses: &Clauses, id: ClauseId, out: &mut Text) {
    print_head(clauses.len(), " clauses ", id.0, clauses.level(id), out);
    print_clause(clauses, id, out);
    out.add("\n");
}

/// Prints of how many clauses one is looked at, and its level.
fn print_head(len: usize, kind: &str, id: u64, level: Option<u64>, out: &mut Text) {
    out.add_number("of ", len as u64);
    out.add_number(kind, id);
    out.add_option(", level ", level);
    out.add(":");
}

/// Prints the trail.
fn print_trail(trail: &Trail, out: &mut Text) {
    out.add_number("level ", trail.current_level() as u64);
    out.add_number(", ", trail.len() as u64);
    out.add(" literals:");
    for entry in trail.literals() {
        out.add_literal(entry.literal());
    }
    out.add("\n");
}

/// Prints what the trail says of an atom.
fn print_value(trail: &Trail, atom: u64, out: &mut Text) {
    out.add_number("atom ", atom);
    out.add(": ");
    out.add(value_of(trail, atom));
    out.add_option(", level ", level_of(trail, atom));
    out.add_option(", clause ", reason_of(trail, atom));
    out.add("\n");
}

/// The value of an atom, as it is printed.
fn value_of(trail: &Trail, atom: u64) -> &'static str {
    match trail.value(atom) {
        Some(true) => "Some(true)",
        Some(false) => "Some(false)",
        None => "None",
    }
}

/// The level of an atom.
fn level_of(trail: &Trail, atom: u64) -> Option<u64> {
    match trail.level(atom) {
        Some(level) => Some(level as u64),
        None => None,
    }
}

/// The number of the clause that forced an atom.
fn reason_of(trail: &Trail, atom: u64) -> Option<u64> {
    match trail.reason(atom) {
        Some(id) => Some(id.0),
        None => None,
    }
}

/// Takes a step of the order of decisions, or of the values that atoms had last.
pub fn wait(
    order: &mut Order,
    phases: &mut Phases,
    step: Waiting,
    numbers: &[i64],
    out: &mut Text,
) {
    let first = number(numbers, 0);
    match step {
        Waiting::Insert => order.insert(first),
        Waiting::Bump => order.bump(first),
        Waiting::Decay => decay(order, first),
        Waiting::Pop => pop(order, out),
        Waiting::Save => phases.save(first, number(numbers, 1) == 1),
        Waiting::Phase => print_phase(phases, first, out),
    }
}

/// Late meetings count more, so many times.
fn decay(order: &mut Order, times: u64) {
    for _ in 0..times {
        order.decay();
    }
}

/// Takes the first atom out of the order, and prints whether it is there before and behind.
fn pop(order: &mut Order, out: &mut Text) {
    let first = order.first();
    let atom = first.unwrap_or(0);
    out.add_option("first ", first);
    out.add_bool(" ", order.contains(atom));
    out.add_option(", popped ", order.pop());
    out.add_bool(" ", order.contains(atom));
    out.add("\n");
}

/// Prints the value that an atom had last.
fn print_phase(phases: &Phases, atom: u64, out: &mut Text) {
    out.add_number("phase ", atom);
    out.add_bool(": ", phases.of(atom));
    out.add("\n");
}

/// Takes a step of what a reader of proofs keeps, or prints what is there.
pub fn look(
    alloc: Global,
    kept: &mut KeptClauses,
    step: Reading,
    numbers: &[i64],
    out: &mut Text,
) -> Result<(), Failure> {
    match step {
        Reading::Kept => keep(alloc, kept, numbers),
        Reading::Leave => {
            kept.leave_above(number(numbers, 0));
            Ok(())
        }
        Reading::Empty => {
            kept.leave_all();
            Ok(())
        }
        Reading::Look => {
            print_copy(kept, number(numbers, 0), out);
            Ok(())
        }
        Reading::Part => print_part(alloc, kept, numbers, out),
        Reading::Learn => learn(alloc, kept, numbers, out),
    }
}

/// Keeps the clause of the numbers behind its level.
fn keep(alloc: Global, kept: &mut KeptClauses, numbers: &[i64]) -> Result<(), Failure> {
    if numbers.is_empty() {
        return Err(Failure::Input);
    }
    let literals = literals(alloc, behind(numbers))?;
    let added = kept.add(&literals, number(numbers, 0));
    drop(literals);
    done(added)
}

/// Prints the clause of a number, and its level.
fn print_copy(kept: &KeptClauses, id: u64, out: &mut Text) {
    print_head(kept.len(), " kept ", id, kept.level(id), out);
    match kept.clause(id) {
        Some(literals) => print_literals(literals, out),
        None => out.add(" none"),
    }
    out.add("\n");
}

/// Prints literals.
fn print_literals(literals: &[Lit], out: &mut Text) {
    for literal in literals {
        out.add_literal(*literal);
    }
}

/// Prints which kept clause is a part of the clause of the numbers.
fn print_part(
    alloc: Global,
    kept: &KeptClauses,
    numbers: &[i64],
    out: &mut Text,
) -> Result<(), Failure> {
    let literals = literals(alloc, numbers)?;
    let printed = print_part_of(kept, &literals, out);
    drop(literals);
    done(printed)
}

/// Prints which kept clause is a part of this one.
fn print_part_of(kept: &KeptClauses, literals: &[Lit], out: &mut Text) -> Result<(), AllocError> {
    out.add_option("part ", kept.part_of(literals)?);
    out.add_bool(" ", kept.is_repeated(literals)?);
    out.add("\n");
    Ok(())
}

/// Prints at which level the clause of the numbers up to a 0 is learned by the hints behind it, or why it is not.
fn learn(
    alloc: Global,
    kept: &KeptClauses,
    numbers: &[i64],
    out: &mut Text,
) -> Result<(), Failure> {
    let clause = literals(alloc, numbers)?;
    let hints = numbers.get(clause.len() + 1..).unwrap_or(&[]);
    let learned = learned_by(alloc, kept, &clause, hints);
    drop(clause);
    print_learned(learned, out)
}

/// The level at which a clause is learned by hints.
fn learned_by(
    alloc: Global,
    kept: &KeptClauses,
    clause: &[Lit],
    hints: &[i64],
) -> Result<u64, NotLearned> {
    let mut ids = Vec::new(alloc);
    add_ids(hints, &mut ids)?;
    let learned = kept.learned(clause, &ids);
    drop(ids);
    learned
}

/// Adds the numbers of clauses.
fn add_ids(hints: &[i64], ids: &mut Vec<u64>) -> Result<(), AllocError> {
    for hint in hints {
        ids.push(hint.unsigned_abs())?;
    }
    Ok(())
}

/// Prints at which level a clause is learned, or why it is not.
fn print_learned(learned: Result<u64, NotLearned>, out: &mut Text) -> Result<(), Failure> {
    match learned {
        Ok(level) => out.add_number("learned at level ", level),
        Err(NotLearned::NoMemory) => return Err(Failure::NoMemory),
        Err(why) => out.add_reason(why),
    }
    out.add("\n");
    Ok(())
}
