//! Cases: clauses with lemmas, wishes and assumptions that are searched, and steps of the engine, of the order of
//! decisions, and of what a reader of proofs keeps. A line of a file is a word and numbers, with a space between. A
//! number is an atom, or with a `-` its negation, and such numbers end with a 0, as in DIMACS.
//!
//! - `= NAME` begins a case, in which there is nothing.
//! - Lines that begin with `c` or `p`, and empty lines, say nothing.
//! - `1 -2 0` keeps a clause at level 0, `at LEVEL 1 -2 0` one at this level.
//! - `lemma 1 -2 0` is a clause that the theory gives where it is false, `wish 1 -2 0` are literals that it asks for,
//!   from the last one on, and `atoms N` says that it wants the atoms from 1 to N.
//! - `search LIMIT 1 -2 0` searches with these assumptions and so many steps at most, from a trail without literals. It
//!   prints how the search ended, and the lines that it put, each of which has to follow as a reader of proofs
//!   follows it; at the end the clauses of both have to be the same. Where there are values, the clauses, the lemmas,
//!   the assumptions and the wanted atoms are looked at one by one. `ends LIMIT 1 -2 0` prints the end alone.
//! - `reserve N`, `assign 1 CLAUSE`, `back LEVEL`, `drop LEVEL`, `forget` and `clear` are steps of the engine. `settle`
//!   propagates, and prints the values of all atoms from 1 on, or that a clause is false; `decide 1` decides a literal
//!   first. `propagate` prints which clause is false, and how long the trail is.
//! - `trail`, `value ATOM` and `clause NUMBER` print what is there.
//! - `insert ATOM`, `bump ATOM`, `decay TIMES` and `pop` are steps of the order of decisions, `save ATOM 1` and `save
//!   ATOM 0` of the values that atoms had last, and `phase ATOM` prints one.
//! - `kept LEVEL 1 -2 0` keeps a clause as a reader of proofs does, and `leave LEVEL` and `empty` drop those above the
//!   level, and all. `look NUMBER` prints a clause, `part 1 -2 0` which kept one is a part of this one, and
//!   `learn 1 -2 0 HINT ..` its level, or why the hints do not teach it.

use crate::failure::{Failure, done};
use crate::reading::keep;
use crate::replayed::{copy, replays};
use crate::steps::{look, print_clause, step, wait};
use crate::text::Text;
use crate::theory::{Given, add_atoms, idle};
use sb_activity::{Order, Phases};
use sb_clauses::{Clauses, Engine};
use sb_hints::KeptClauses;
use sb_lit::{Budget, Clause, ClauseId, Lit};
use sb_proof::MemTape;
use sb_search::{Choices, Found, search};
use sb_trail::{CompactLit, Trail};
use std::alloc::{AllocError, Global};
use std::io::Write;
use std::{fs, mem};

/// The first word of a line.
#[derive(Clone, Copy)]
pub enum Word {
    Begin,
    Comment,
    Clause,
    At,
    Lemma,
    Wish,
    Atoms,
    Search,
    Ends,
    Reserve,
    Decide,
    Assign,
    Back,
    Drop,
    Forget,
    Clear,
    Propagate,
    Settle,
    Trail,
    Value,
    Look,
    Wait(Waiting),
    Read(Reading),
}

/// A step of the order of decisions, or of the values that atoms had last.
#[derive(Clone, Copy)]
pub enum Waiting {
    Insert,
    Bump,
    Decay,
    Pop,
    Save,
    Phase,
}

/// A step of what a reader of proofs keeps.
#[derive(Clone, Copy)]
pub enum Reading {
    Kept,
    Leave,
    Empty,
    Look,
    Part,
    Learn,
}

/// The words, but for a clause, which begins with a number.
const WORDS: [(&str, Word); 33] = [
    ("=", Word::Begin),
    ("c", Word::Comment),
    ("p", Word::Comment),
    ("at", Word::At),
    ("lemma", Word::Lemma),
    ("wish", Word::Wish),
    ("atoms", Word::Atoms),
    ("search", Word::Search),
    ("ends", Word::Ends),
    ("reserve", Word::Reserve),
    ("decide", Word::Decide),
    ("assign", Word::Assign),
    ("back", Word::Back),
    ("drop", Word::Drop),
    ("forget", Word::Forget),
    ("clear", Word::Clear),
    ("propagate", Word::Propagate),
    ("settle", Word::Settle),
    ("trail", Word::Trail),
    ("value", Word::Value),
    ("clause", Word::Look),
    ("insert", Word::Wait(Waiting::Insert)),
    ("bump", Word::Wait(Waiting::Bump)),
    ("decay", Word::Wait(Waiting::Decay)),
    ("pop", Word::Wait(Waiting::Pop)),
    ("save", Word::Wait(Waiting::Save)),
    ("phase", Word::Wait(Waiting::Phase)),
    ("kept", Word::Read(Reading::Kept)),
    ("leave", Word::Read(Reading::Leave)),
    ("empty", Word::Read(Reading::Empty)),
    ("look", Word::Read(Reading::Look)),
    ("part", Word::Read(Reading::Part)),
    ("learn", Word::Read(Reading::Learn)),
];

/// What there is in a case.
#[derive(Drop)]
struct Case {
    engine: Engine,
    theory: Given,
    order: Order,
    phases: Phases,
    kept: KeptClauses,
}

/// A case in which there is nothing.
fn nothing(alloc: Global) -> Case {
    Case {
        engine: Engine::new(alloc),
        theory: idle(alloc),
        order: Order::new(alloc),
        phases: Phases::new(alloc),
        kept: KeptClauses::new(alloc),
    }
}

/// Goes through the cases of a file, and prints what they come to.
pub fn go_through(rt: HostRuntime, name: &str) -> Result<(), Failure> {
    match fs::read_to_string(&rt, name) {
        Ok(text) => go_through_text(rt, text.as_str()),
        Err(_) => Err(Failure::Outside),
    }
}

/// Goes through the cases of a text, and prints what they come to, also where one fails.
fn go_through_text(rt: HostRuntime, text: &str) -> Result<(), Failure> {
    let mut out = Text::new(rt.alloc());
    let mut case = nothing(rt.alloc());
    let taken = take_all(rt.alloc(), text, &mut case, &mut out);
    drop(case);
    let printed = print(rt, &out);
    drop(out);
    match printed {
        Ok(()) => taken,
        Err(failure) => Err(failure),
    }
}

/// Prints a text, which is to be whole.
fn print(rt: HostRuntime, out: &Text) -> Result<(), Failure> {
    match rt.stdout().write_all(out.bytes()) {
        Ok(()) if out.is_whole() => Ok(()),
        Ok(()) => Err(Failure::NoMemory),
        Err(_) => Err(Failure::Outside),
    }
}

/// Takes each line.
fn take_all(alloc: Global, text: &str, case: &mut Case, out: &mut Text) -> Result<(), Failure> {
    for line in text.lines() {
        take_line(alloc, line, case, out)?;
    }
    Ok(())
}

/// Begins a case, or takes a line of it.
fn take_line(alloc: Global, line: &str, case: &mut Case, out: &mut Text) -> Result<(), Failure> {
    match word_of(line.split_whitespace().next().unwrap_or("c")) {
        Word::Comment => Ok(()),
        Word::Begin => {
            drop(mem::replace(case, nothing(alloc)));
            out.add(line);
            out.add("\n");
            Ok(())
        }
        word => take_word(alloc, case, word, line, out),
    }
}

/// Takes a line that begins with a word.
fn take_word(
    alloc: Global,
    case: &mut Case,
    word: Word,
    line: &str,
    out: &mut Text,
) -> Result<(), Failure> {
    let mut numbers = Vec::new(alloc);
    add_numbers(line, &mut numbers)?;
    let taken = take(alloc, case, word, &numbers, out);
    drop(numbers);
    taken
}

/// Adds the numbers of a line, behind its word.
fn add_numbers(line: &str, numbers: &mut Vec<i64>) -> Result<(), AllocError> {
    for part in line.split_whitespace() {
        if let Ok(number) = part.parse::<i64>() {
            numbers.push(number)?;
        }
    }
    Ok(())
}

/// The first word of a line.
fn word_of(first: &str) -> Word {
    for (name, word) in &WORDS {
        if is_same(name, first) {
            return *word;
        }
    }
    Word::Clause
}

/// Whether two texts are the same.
fn is_same(text: &str, other: &str) -> bool {
    text == other
}

/// The number at a place, without its sign; 0 where there is none.
pub fn number(numbers: &[i64], place: usize) -> u64 {
    match numbers.get(place) {
        Some(number) => number.unsigned_abs(),
        None => 0,
    }
}

/// The literal that a number is.
pub fn literal(number: i64) -> Lit {
    Lit {
        atom: number.unsigned_abs(),
        positive: number > 0,
    }
}

/// The literals of the numbers, up to a 0.
pub fn literals(alloc: Global, numbers: &[i64]) -> Result<Vec<Lit>, AllocError> {
    let mut literals = Vec::new(alloc);
    add_literals(numbers, &mut literals)?;
    Ok(literals)
}

/// Adds the literals of the numbers, up to a 0.
fn add_literals(numbers: &[i64], literals: &mut Vec<Lit>) -> Result<(), AllocError> {
    for number in numbers {
        if *number == 0 {
            break;
        }
        literals.push(literal(*number))?;
    }
    Ok(())
}

/// The numbers behind the first one.
pub fn behind(numbers: &[i64]) -> &[i64] {
    match numbers {
        [] => &[],
        [_, rest @ ..] => rest,
    }
}

/// Takes a line of what is searched, or a step.
fn take(
    alloc: Global,
    case: &mut Case,
    word: Word,
    numbers: &[i64],
    out: &mut Text,
) -> Result<(), Failure> {
    match word {
        Word::Search => find(alloc, case, numbers, true, out),
        Word::Ends => find(alloc, case, numbers, false, out),
        Word::Wait(step) => {
            wait(&mut case.order, &mut case.phases, step, numbers, out);
            Ok(())
        }
        Word::Read(step) => look(alloc, &mut case.kept, step, numbers, out),
        Word::Reserve => done(reserve(case, number(numbers, 0) as usize, out)),
        Word::Clause | Word::At | Word::Lemma | Word::Wish | Word::Atoms => {
            done(add(alloc, case, word, numbers))
        }
        _ => step(&mut case.engine, word, numbers, out),
    }
}

/// Adds a clause, a lemma, wishes or atoms that are wanted.
fn add(alloc: Global, case: &mut Case, word: Word, numbers: &[i64]) -> Result<(), AllocError> {
    match word {
        Word::At => add_clause(alloc, &mut case.engine, behind(numbers), number(numbers, 0)),
        Word::Lemma => add_lemma(alloc, &mut case.theory.lemmas, numbers),
        Word::Wish => {
            case.theory.wishes.clear();
            add_literals(numbers, &mut case.theory.wishes)
        }
        Word::Atoms => {
            case.theory.atoms.clear();
            let end = number(numbers, 0).saturating_add(1);
            add_atoms(1, end, &mut case.theory.atoms)
        }
        _ => add_clause(alloc, &mut case.engine, numbers, 0),
    }
}

/// Keeps the clause of these numbers at a level.
fn add_clause(
    alloc: Global,
    engine: &mut Engine,
    numbers: &[i64],
    level: u64,
) -> Result<(), AllocError> {
    let literals = literals(alloc, numbers)?;
    let kept = keep(alloc, engine, &literals, level);
    drop(literals);
    kept
}

/// Adds the lemma of these numbers.
fn add_lemma(alloc: Global, lemmas: &mut Vec<Clause>, numbers: &[i64]) -> Result<(), AllocError> {
    let lemma = Clause::from_literals(literals(alloc, numbers)?);
    lemmas.push(lemma)?;
    Ok(())
}

/// Makes places for atoms.
fn reserve(case: &mut Case, count: usize, out: &mut Text) -> Result<(), AllocError> {
    case.engine.reserve(count)?;
    case.order.reserve(count)?;
    case.phases.reserve(count)?;
    out.add_number("", case.engine.trail().reserved() as u64);
    out.add_number(" places, ", case.order.len() as u64);
    out.add(" in order\n");
    Ok(())
}

/// Searches with the assumptions behind the limit, and prints what it comes to, with its lines or the end alone.
fn find(
    alloc: Global,
    case: &mut Case,
    numbers: &[i64],
    shown: bool,
    out: &mut Text,
) -> Result<(), Failure> {
    let assumptions = literals(alloc, behind(numbers))?;
    let limit = number(numbers, 0);
    let mut kept = KeptClauses::new(alloc);
    let mut tape = MemTape::new(alloc);
    let found = find_on(
        alloc,
        case,
        &mut kept,
        &mut tape,
        &assumptions,
        limit,
        shown,
        out,
    );
    drop(tape);
    drop(kept);
    drop(assumptions);
    found
}

/// Searches on a tape, and follows its lines as a reader of proofs does.
fn find_on(
    alloc: Global,
    case: &mut Case,
    kept: &mut KeptClauses,
    tape: &mut MemTape,
    assumptions: &[Lit],
    limit: u64,
    shown: bool,
    out: &mut Text,
) -> Result<(), Failure> {
    copy(alloc, case.engine.clauses(), kept)?;
    let (found, spent) = search_case(alloc, case, tape, assumptions, limit)?;
    let lines = str::from_utf8(tape.bytes()).unwrap_or("no text");
    if !replays(alloc, kept, lines, case.engine.clauses())? {
        out.add("lines that do not follow\n");
    }
    print_end(case, found, assumptions, shown, out);
    if shown {
        print_steps(&case.theory, spent, limit, out);
        out.add(lines);
    } else {
        out.add("\n");
    }
    Ok(())
}

/// Searches from a trail without literals, and says how many steps were spent.
fn search_case(
    alloc: Global,
    case: &mut Case,
    tape: &mut MemTape,
    assumptions: &[Lit],
    limit: u64,
) -> Result<(Found, u64), Failure> {
    case.engine.clear();
    let mut budget = Budget::new(limit);
    let (theory, engine) = (&mut case.theory, &mut case.engine);
    let mut choices = Choices::new(alloc);
    let found = search(
        alloc,
        theory,
        engine,
        &mut choices,
        tape,
        assumptions,
        &mut budget,
    )?;
    Ok((found, budget.spent()))
}

/// Prints how many steps were spent, and how often the theory was asked.
fn print_steps(theory: &Given, spent: u64, limit: u64, out: &mut Text) {
    out.add_number(", ", spent);
    out.add_number(" of ", limit);
    out.add_number(" steps, asked ", theory.asked);
    out.add_number(" times, ", theory.last);
    out.add_number(" at last, back to ", theory.back as u64);
    out.add("\n");
}

/// Prints how a search ended, with the clause that was found where it is shown.
fn print_end(case: &Case, found: Found, assumptions: &[Lit], shown: bool, out: &mut Text) {
    match found {
        Found::Sat if has_values(case, assumptions) => out.add("sat"),
        Found::Sat => out.add("sat by other values"),
        Found::Unsat(id) if shown => {
            out.add("unsat by");
            print_clause(case.engine.clauses(), id, out);
        }
        Found::Unsat(_) => out.add("unsat"),
        Found::Spent => out.add("spent"),
    }
}

/// Whether all is true that is to be: the assumptions, and of each clause and each lemma a literal. Each atom that is
/// wanted has a value.
fn has_values(case: &Case, assumptions: &[Lit]) -> bool {
    let trail = case.engine.trail();
    let all = are_true(trail, assumptions);
    let clauses = clauses_hold(trail, case.engine.clauses());
    let lemmas = lemmas_hold(trail, &case.theory.lemmas);
    let atoms = have_values(trail, &case.theory.atoms);
    all & clauses & lemmas & atoms
}

/// Whether a literal is true.
fn is_true(trail: &Trail, literal: Lit) -> bool {
    trail.literal_value(literal).unwrap_or(false)
}

/// Whether all literals are true.
fn are_true(trail: &Trail, literals: &[Lit]) -> bool {
    for literal in literals {
        if !is_true(trail, *literal) {
            return false;
        }
    }
    true
}

/// Whether some literal is true.
fn some_true(trail: &Trail, literals: &[Lit]) -> bool {
    for literal in literals {
        if is_true(trail, *literal) {
            return true;
        }
    }
    false
}

/// Whether of each lemma a literal is true.
fn lemmas_hold(trail: &Trail, lemmas: &[Clause]) -> bool {
    for lemma in lemmas {
        if !some_true(trail, lemma.literals()) {
            return false;
        }
    }
    true
}

/// Whether of each kept clause a literal is true.
fn clauses_hold(trail: &Trail, clauses: &Clauses) -> bool {
    for number in 0..clauses.len() {
        if !clause_holds(trail, clauses.literals(ClauseId(number as u64))) {
            return false;
        }
    }
    true
}

/// Whether a literal is true of the clause, if there is one.
fn clause_holds(trail: &Trail, clause: Option<&[CompactLit]>) -> bool {
    let Some(literals) = clause else {
        return true;
    };
    for kept in literals {
        if is_true(trail, kept.literal()) {
            return true;
        }
    }
    false
}

/// Whether all atoms have values.
fn have_values(trail: &Trail, atoms: &[u64]) -> bool {
    for atom in atoms {
        if trail.value(*atom).is_none() {
            return false;
        }
    }
    true
}
