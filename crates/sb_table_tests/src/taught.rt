//! Searches over a theory whose lemmas need not be false on the trail.

ghost use Rattle.std.specs.Prelude.{◌≡◌, [], length};
ghost use Rattle.std.proofs.Common.{rules};

use crate::searches::{NOT_ONE, NOT_TWO, ONE, TWO};
use sb_clauses::{Clauses, Engine};
use sb_lit::{Budget, Clause, Lit};
use sb_proof::{MemTape, Tape, TapeFault};
use sb_search::{Checked, Choices, Found, Theory, search};
use sb_trail::Trail;
use std::alloc::{AllocError, Global};
use std::process::Abort;
use std::test::Fail;

/// A theory that gives its lemmas as soon as so many literals are on the trail, each once, whatever is true.
#[derive(Drop)]
struct Eager {
    /// The atoms that are wanted.
    atoms: Vec<u64>,
    lemmas: Vec<Clause>,
    from: usize,
}

impl Theory for Eager {
    ghost wanted = { λ theory. theory.atoms.items };

    ghost passes = { λ _ _. Unit {0} };

    ghost teaches = { λ _ _. Unit {0} };

    ghost measure = { λ theory _ _. length theory.lemmas.items };

    ghost stands = { λ _ _. Unit {0} };

    ghost agrees = { λ _ _. Unit {0} };

    ghost puts = { λ _ _ _ _. Unit {0} };

    fn check<L: Tape>(
        &mut self,
        trail: &Trail,
        _clauses: &Clauses,
        _last: bool,
        _tape: &mut L,
        _budget: &mut Budget,
    ) -> Result<Checked, TapeFault> {
        if trail.len() < self.from {
            return Ok(Checked::Fine);
        }
        match self.lemmas.pop() {
            Some(lemma) => Ok(Checked::Lemma(lemma)),
            None => Ok(Checked::Fine),
        }
    }

    fn backtrack(&mut self, _level: usize) {}

    fn wanted_at(&self, at: u64) -> Option<u64> {
        let _atoms = self.atoms.len();
        self.atoms.get(at as usize).copied()
    }

    fn phase(&self, _atom: u64) -> Option<bool> {
        None
    }

    ghost stands_longer = { λ _ _ _ _. tt };

    ghost measure_longer = { Prim.search rules };

    ghost puts_none = { λ _ _. tt };

    ghost puts_both = { λ _ _ _ _ _ _ _ _. tt };

    ghost puts_learned = { λ _ _ _ _ _ _ _ _ _. tt };

    ghost puts_gate = { λ _ _ _ _ _. tt };
}

/// A lemma, how many literals are on the trail when it comes, and literals that are true in the end, with their levels.
/// Three atoms are wanted, and each is decided to be false where nothing forces it.
struct Case {
    lemma: &'static [Lit],
    from: usize,
    truths: &'static [(Lit, usize)],
}

const NOT_THREE: Lit = Lit {
    atom: 2,
    positive: false,
};

static CASES: [Case; 5] = [
    // Nothing is true yet.
    Case {
        lemma: &[ONE, TWO],
        from: 0,
        truths: &[(NOT_ONE, 1), (TWO, 1), (NOT_THREE, 2)],
    },
    // It leaves one literal on the first level.
    Case {
        lemma: &[ONE, TWO],
        from: 2,
        truths: &[(NOT_ONE, 1), (TWO, 1), (NOT_THREE, 2)],
    },
    // The literal that it leaves there is decided on the second one.
    Case {
        lemma: &[ONE, NOT_THREE],
        from: 2,
        truths: &[(NOT_ONE, 1), (NOT_THREE, 1), (NOT_TWO, 2)],
    },
    // It leaves one where nothing is decided.
    Case {
        lemma: &[TWO],
        from: 2,
        truths: &[(TWO, 0)],
    },
    // A literal of it is true on each level on which the other one is false.
    Case {
        lemma: &[NOT_ONE, TWO],
        from: 3,
        truths: &[(NOT_ONE, 1), (NOT_THREE, 2), (NOT_TWO, 3)],
    },
];

/// The theory of a case wants three atoms, and has the lemma.
fn fill(alloc: Global, theory: &mut Eager, lemma: &[Lit]) -> Result<(), AllocError> {
    for atom in 0..3 {
        theory.atoms.push(atom)?;
    }
    let literals = Vec::from_slice(alloc, lemma)?;
    theory.lemmas.push(Clause::from_literals(literals))?;
    Ok(())
}

/// Expects literals to be true, each from its level on.
fn expect_truths(rt: &impl Abort, trail: &Trail, truths: &[(Lit, usize)]) {
    for (literal, level) in truths {
        assert!(rt; trail.literal_value(*literal) == Some(true));
        assert!(rt; trail.level(literal.atom) == Some(*level));
    }
}

/// Makes the search of a case, and expects it to come to what is wanted, with no step and no line.
fn search_case(
    rt: &impl Abort,
    alloc: Global,
    theory: &mut Eager,
    engine: &mut Engine,
    tape: &mut MemTape,
    case: &Case,
) -> Result<(), TapeFault>
    requires { engine.old.trail.literals ≡ [] }
{
    let mut budget = Budget::new(9);
    let mut choices = Choices::new(alloc);
    let found = search(alloc, theory, engine, &mut choices, tape, &[], &mut budget)?;
    assert!(rt; matches!(found, Found::Sat));
    assert!(rt; budget.spent() == 0);
    assert!(rt; tape.bytes().is_empty());
    expect_truths(rt, engine.trail(), case.truths);
    Ok(())
}

/// Goes through a case over clauses of its own.
fn expect_case(rt: &impl Abort, alloc: Global, case: &Case) -> Result<(), TapeFault> {
    let mut theory = Eager {
        atoms: Vec::new(alloc),
        lemmas: Vec::new(alloc),
        from: case.from,
    };
    let filled = fill(alloc, &mut theory, case.lemma);
    let mut engine = Engine::new(alloc);
    let mut tape = MemTape::new(alloc);
    let searched = match filled {
        Ok(()) => search_case(rt, alloc, &mut theory, &mut engine, &mut tape, case),
        Err(error) => Err(TapeFault::from(error)),
    };
    drop(tape);
    drop(engine);
    drop(theory);
    searched
}

/// Goes through the cases.
fn expect_cases(rt: &impl Abort, alloc: Global) -> Result<(), TapeFault> {
    for case in &CASES {
        expect_case(rt, alloc, case)?;
    }
    Ok(())
}

#[test]
fn lemmas_need_not_be_false(rt: HostRuntime) -> Result<(), Fail> {
    expect_cases(&rt, rt.alloc())?;
    Ok(())
}
