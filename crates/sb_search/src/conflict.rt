//! Clauses that are false on the trail.

ghost use Rattle.std.specs.Prelude.{◌≡◌, List, [], true, IfOk};
ghost use Rattle.sb_lit.specs.declared.clause.Lit.{Lit as TheLit};
ghost use Rattle.sb_lit.specs.Budgets.{Spending};
ghost use Rattle.sb_trail.specs.Assignments.{held};
ghost use Rattle.sb_clauses.specs.Propagation.{IsConflict};
ghost use Rattle.sb_analyze.specs.Reasons.{AreReasoned};
ghost use Rattle.sb_analyze.specs.Cores.{AreAssumed, IsFinal, IsBothCore, IsNewCore};
ghost use Rattle.sb_rulebook.specs.Lines.{rule_line, gate};
ghost use Rattle.sb_rulebook.specs.LineLaws.{has_text};
ghost use Rattle.sb_search.specs.Asking.{CountsFaults};
ghost use Rattle.sb_search.specs.Turning.{Stays, IsReady, IsTurned, LessonsFollow, Refutes, moment};
ghost use Rattle.sb_search.specs.Writing.{true_or_false};

use crate::found::Found;
use crate::lemma::{keep, keep_at, keeps_laws};
use crate::lines::{put_both, put_learned};
use crate::stage::Stage;
use crate::theory::Theory;
use crate::turn::Turn;
use sb_analyze::{Core, Learned, final_core, learn};
use sb_clauses::Engine;
use sb_lit::{Budget, Clause, ClauseId, Lit};
use sb_proof::{Tape, TapeFault};
use sb_sound::hints::{learned_has_levels, learned_holds};
use std::alloc::{AllocError, Global};

/// Learns from a false clause, and goes back to where what was learned leaves one literal, or to the beginning; where
/// all decisions are assumptions they are refuted.
pub(crate) fn resolve<T: Theory, L: Tape>(
    alloc: Global,
    theory: &mut T,
    engine: &mut Engine,
    stage: &mut Stage,
    assumptions: &[Lit],
    conflict: ClauseId,
    tape: &mut L,
    budget: &mut Budget,
) -> Result<Turn, TapeFault>
    requires ready { IsReady T.Theory assumptions.now stage.old theory.old engine.old }
    requires conflict { IsConflict engine.old.kept (held engine.old.trail.literals) conflict.0 }
    ensures turned { IfOk result (IsTurned T.Theory assumptions.now stage.new
        (moment theory.old engine.old budget.old (L.Tape.told tape.old))
        (moment theory.new engine.new budget.new (L.Tape.told tape.new))) }
    ensures stays { Stays T.Theory theory.old theory.new }
    ensures counts { CountsFaults result (L.Tape.faults tape.old) (L.Tape.faults tape.new) }
{
    keeps_laws::<T>();
    let trail = engine.trail();
    let _before = trail.literals();
    if trail.current_level() <= stage.levels {
        let found = refute(alloc, engine, assumptions, Some(conflict), tape, budget)?;
        return Ok(Turn::Ends(found));
    }
    if budget.tick().is_err() {
        return Ok(Turn::Ends(Found::Spent));
    }
    let lesson = learn(alloc, engine.trail(), engine.clauses(), conflict)?;
    stage.choices.learn(engine.clauses(), &lesson);
    learned_follows();
    put_learned(alloc, &lesson, tape)?;
    let level = stage.restarts.level(lesson.backjump_level);
    keep_at(theory, engine, stage, level, &lesson.clause, lesson.level)?;
    Ok(Turn::Moves)
}

/// A kept clause of negated assumptions: one that is there, or that two assumptions are not both true, or one that is
/// learned.
pub(crate) fn refute<L: Tape>(
    alloc: Global,
    engine: &mut Engine,
    assumptions: &[Lit],
    conflict: Option<ClauseId>,
    tape: &mut L,
    budget: &mut Budget,
) -> Result<Found, TapeFault>
    requires reasoned { AreReasoned engine.old.kept [] engine.old.trail.literals }
    requires assumed { AreAssumed assumptions.now engine.old.trail.literals }
    requires conflict { IsFinal engine.old.kept engine.old.trail.literals assumptions.now conflict }
    ensures refutes { IfOk result (Refutes assumptions.now engine.old engine.new budget.old budget.new
        (L.Tape.told tape.old) (L.Tape.told tape.new)) }
    ensures counts { CountsFaults result (L.Tape.faults tape.old) (L.Tape.faults tape.new) }
{
    let core = final_core(
        alloc,
        engine.trail(),
        engine.clauses(),
        conflict,
        assumptions,
    )?;
    match core {
        Core::Kept(id) => Ok(Found::Unsat(id)),
        Core::Both(literal) => keep_both(alloc, engine, literal, tape),
        Core::New(lesson) => keep_core(alloc, engine, &lesson, tape, budget),
    }
}

/// Keeps the clause that a literal or its negation is true, at level 0.
fn keep_both<L: Tape>(
    alloc: Global,
    engine: &mut Engine,
    literal: Lit,
    tape: &mut L,
) -> Result<Found, TapeFault>
    requires { AreReasoned engine.old.kept [] engine.old.trail.literals }
    ensures refutes { IfOk result (λ found. (assumptions : List TheLit) (budget : Spending)
        → IsBothCore engine.old.kept assumptions literal → Refutes assumptions engine.old engine.new budget budget
        (L.Tape.told tape.old) (L.Tape.told tape.new) found) }
    ensures counts { CountsFaults result (L.Tape.faults tape.old) (L.Tape.faults tape.new) }
{
    put_both(both(alloc, literal.atom)?, tape)?;
    let clause = Clause::from_literals(both(alloc, literal.atom)?);
    let id = keep(engine, &clause, 0)?;
    Ok(Found::Unsat(id))
}

/// The two literals of an atom.
fn both(alloc: Global, atom: u64) -> Result<Vec<Lit>, AllocError>
    ensures both { IfOk result (λ literals. literals.items ≡ true_or_false atom) }
    ensures has_text { has_text (rule_line gate (true_or_false atom)) ≡ true }
{
    let literals = [
        Lit {
            atom,
            positive: true,
        },
        Lit {
            atom,
            positive: false,
        },
    ];
    Vec::from_slice(alloc, &literals)
}

/// Keeps a clause of negated assumptions, which was learned.
fn keep_core<L: Tape>(
    alloc: Global,
    engine: &mut Engine,
    lesson: &Learned,
    tape: &mut L,
    budget: &mut Budget,
) -> Result<Found, TapeFault>
    requires { AreReasoned engine.old.kept [] engine.old.trail.literals }
    ensures refutes { IfOk result (λ found. (assumptions : List TheLit)
        → IsNewCore engine.old.kept assumptions lesson.now → Refutes assumptions engine.old engine.new budget.old
        budget.new (L.Tape.told tape.old) (L.Tape.told tape.new) found) }
    ensures counts { CountsFaults result (L.Tape.faults tape.old) (L.Tape.faults tape.new) }
{
    if budget.tick().is_err() {
        return Ok(Found::Spent);
    }
    learned_follows();
    put_learned(alloc, lesson, tape)?;
    let id = keep(engine, &lesson.clause, lesson.level)?;
    Ok(Found::Unsat(id))
}

/// A clause that is learned follows from what is kept, up to each level.
fn learned_follows()
    ensures { LessonsFollow }
{
    learned_holds();
    learned_has_levels();
}
