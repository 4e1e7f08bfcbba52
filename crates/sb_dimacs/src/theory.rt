//! Theories of which all is known, and the whole search over them.

ghost use Rattle.std.specs.Prelude.{◌≡◌, ◌^◌, ◌<◌, ◌≤◌, [], true, length, None, IfOk, IfSome};
ghost use Rattle.std.specs.List.{slice_get};
ghost use Rattle.std.proofs.Common.{rules};
ghost use Rattle.sb_lit.specs.Clauses.{is_false_clause};
ghost use Rattle.sb_trail.specs.Assignments.{held};
ghost use Rattle.sb_search.specs.Asking.{CountsFaults};
ghost use Rattle.sb_dimacs.specs.Giving.{Gives};

use crate::failure::Failure;
use sb_clauses::{Clauses, Engine};
use sb_lit::{Budget, Clause, Lit};
use sb_proof::{Line, Rule, Tape, TapeFault};
use sb_search::{Checked, Choices, Found, Theory, search};
use sb_trail::Trail;
use std::alloc::{AllocError, Global};

/// A theory that gives a lemma where it is false, for a step, and asks for literals one after the other, from the last,
/// each once. Without lemmas and wishes it finds nothing wrong.
#[derive(Drop)]
pub struct Given {
    pub alloc: Global,
    /// The atoms that are wanted.
    pub atoms: Vec<u64>,
    pub lemmas: Vec<Clause>,
    pub wishes: Vec<Lit>,
    /// How often it was asked.
    pub asked: u64,
    /// How often for the last time.
    pub last: u64,
    /// The level to which the search went back at last.
    pub back: usize,
}

impl Theory for Given {
    ghost wanted = { λ theory. theory.atoms.items };

    ghost passes = { λ _ _. Unit {0} };

    ghost teaches = { λ _ _. Unit {0} };

    ghost measure = { λ theory _ _. length theory.wishes.items };

    ghost stands = { λ _ _. Unit {0} };

    ghost agrees = { λ _ _. Unit {0} };

    ghost puts = { λ _ _ _ _. Unit {0} };

    fn check<L: Tape>(
        &mut self,
        trail: &Trail,
        _clauses: &Clauses,
        last: bool,
        tape: &mut L,
        budget: &mut Budget,
    ) -> Result<Checked, TapeFault> {
        self.asked = self.asked.wrapping_add(1);
        self.last = self.last.wrapping_add(u64::from(last));
        let Ok(found) = false_one(self.alloc, trail, &self.lemmas) else {
            return Err(TapeFault::NoMemory);
        };
        if let Some(lemma) = found {
            return give(self.alloc, lemma, tape, budget);
        }
        match self.wishes.pop() {
            Some(literal) if trail.value(literal.atom).is_none() => Ok(Checked::Ask(literal)),
            _ => Ok(Checked::Fine),
        }
    }

    fn backtrack(&mut self, level: usize) {
        self.back = level;
    }

    fn wanted_at(&self, at: u64) -> Option<u64> {
        let _atoms = self.atoms.len();
        self.atoms.get(at as usize).copied()
    }

    fn phase(&self, _atom: u64) -> Option<bool> {
        None
    }

    ghost stands_longer = { λ _ _ _ _. tt };

    ghost measure_longer = { Prim.search rules };

    ghost puts_none = { λ _ _. tt };

    ghost puts_both = { λ _ _ _ _ _ _ _ _. tt };

    ghost puts_learned = { λ _ _ _ _ _ _ _ _ _. tt };

    ghost puts_gate = { λ _ _ _ _ _. tt };
}

/// Gives a lemma, with its line, for a step.
fn give<L: Tape>(
    alloc: Global,
    lemma: Clause,
    tape: &mut L,
    budget: &mut Budget,
) -> Result<Checked, TapeFault>
    ensures given { IfOk result (Gives lemma budget.old budget.new) }
    ensures limit { budget.new.limit ≡ budget.old.limit }
    ensures spends { budget.old.spent ≤ budget.new.spent }
    ensures within { budget.old.spent < budget.new.spent → budget.new.spent ≤ budget.new.limit }
    ensures counts { CountsFaults result (L.Tape.faults tape.old) (L.Tape.faults tape.new) }
{
    if budget.tick().is_err() {
        drop(lemma);
        return Ok(Checked::Spent);
    }
    match put_step(alloc, lemma.literals(), tape) {
        Ok(()) => Ok(Checked::Lemma(lemma)),
        Err(fault) => {
            drop(lemma);
            Err(fault)
        }
    }
}

/// Puts the line of a lemma.
fn put_step<L: Tape>(alloc: Global, literals: &[Lit], tape: &mut L) -> Result<(), TapeFault>
    ensures { CountsFaults result (L.Tape.faults tape.old) (L.Tape.faults tape.new) }
{
    let Ok(literals) = Vec::from_slice(alloc, literals) else {
        return Err(TapeFault::NoMemory);
    };
    let line = Line::Rule(Rule::Step, literals);
    let put = tape.put(&line);
    drop(line);
    put
}

/// The first lemma that is false.
fn false_one(alloc: Global, trail: &Trail, lemmas: &[Clause]) -> Result<Option<Clause>, AllocError>
    ensures { IfOk result (λ found. IfSome found (λ lemma. is_false_clause (held trail.now.literals) lemma ≡ true)) }
{
    for lemma in lemmas {
        if is_false(trail, lemma.literals()) {
            let literals = Vec::from_slice(alloc, lemma.literals())?;
            return Ok(Some(Clause::from_literals(literals)));
        }
    }
    Ok(None)
}

/// Whether all literals are false.
fn is_false(trail: &Trail, literals: &[Lit]) -> bool
    ensures { result ≡ true → is_false_clause (held trail.now.literals) literals.now ≡ true }
{
    for literal in literals {
        if trail.literal_value(*literal) != Some(false) {
            return false;
        }
    }
    true
}

/// A tape that keeps nothing.
#[derive(Drop)]
struct Silent;

impl Tape for Silent {
    ghost told = { λ _. None };

    ghost faults = { λ _. 0 };

    fn put(&mut self, _line: &Line) -> Result<(), TapeFault> {
        Ok(())
    }
}

/// Adds the atoms from one on below the other.
pub fn add_atoms(first: u64, end: u64, atoms: &mut Vec<u64>) -> Result<(), AllocError> {
    for atom in first..end {
        atoms.push(atom)?;
    }
    Ok(())
}

/// The theory that wants no atoms, and finds nothing wrong.
pub fn idle(alloc: Global) -> Given {
    Given {
        alloc,
        atoms: Vec::new(alloc),
        lemmas: Vec::new(alloc),
        wishes: Vec::new(alloc),
        asked: 0,
        last: 0,
        back: 0,
    }
}

/// Searches for values of all atoms, over a theory that finds nothing wrong and a tape that keeps nothing. Says whether
/// there are such values, and how many steps were spent.
pub fn search_plain(alloc: Global, engine: &mut Engine) -> Result<(&'static str, u64), Failure> {
    let mut theory = idle(alloc);
    let mut budget = Budget::new(u64::MAX);
    engine.clear();
    let found = search_over(alloc, &mut theory, engine, &mut budget);
    drop(theory);
    match found {
        Ok(verdict) => Ok((verdict, budget.spent())),
        Err(failure) => Err(failure),
    }
}

/// Searches over a theory, which is to want all atoms.
fn search_over(
    alloc: Global,
    theory: &mut Given,
    engine: &mut Engine,
    budget: &mut Budget,
) -> Result<&'static str, Failure>
    requires { engine.old.trail.literals ≡ [] }
{
    add_atoms(0, engine.atoms() as u64, &mut theory.atoms)?;
    let mut choices = Choices::new(alloc);
    match search(
        alloc,
        theory,
        engine,
        &mut choices,
        &mut Silent,
        &[],
        budget,
    )? {
        Found::Sat => Ok("SATISFIABLE"),
        Found::Unsat(_) => Ok("UNSATISFIABLE"),
        Found::Spent => Err(Failure::Lost),
    }
}
