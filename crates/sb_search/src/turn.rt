//! One turn of a search.

ghost use Rattle.std.specs.Prelude.{◌≡◌, ℕ, ◌<◌, ◌≤◌, List, true, length, Some, None, Ok, IfOk, OnOk};
ghost use Rattle.sb_lit.specs.declared.clause.Lit.{Lit as TheLit};
ghost use Rattle.sb_lit.specs.Clauses.{is_among};
ghost use Rattle.sb_trail.specs.Assignments.{held, value_of, current_level};
ghost use Rattle.sb_clauses.specs.Propagation.{IsSettled};
ghost use Rattle.sb_search.specs.Asking.{CountsFaults, decided};
ghost use Rattle.sb_search.specs.Found.{are_true};
ghost use Rattle.sb_search.specs.Searching.{IsSearching, IsNext};
ghost use Rattle.sb_search.specs.Turning.{Stays, IsReady, IsTurned, IsAnswered, moment};

use crate::conflict::{refute, resolve};
use crate::found::Found;
use crate::lemma::{keep_at, keeps_laws, lowest_level, make_place};
use crate::stage::{Next, Stage};
use crate::theory::{Checked, Theory};
use sb_clauses::{Engine, Propagated};
use sb_lit::{Budget, Lit};
use sb_proof::{Tape, TapeFault};
use std::alloc::Global;

/// How a turn ends.
#[derive(Clone, Copy)]
pub(crate) enum Turn {
    /// The search ends.
    Ends(Found),
    /// The next literal was decided.
    Decides,
    /// A clause was learned, or the theory gave a lemma or asked for a literal.
    Moves,
}

/// Propagates, asks the theory, and decides the next literal; or learns from the clause that is false; where an
/// assumption is false, refutes the assumptions.
pub(crate) fn take_turn<T: Theory, L: Tape>(
    alloc: Global,
    theory: &mut T,
    engine: &mut Engine,
    stage: &mut Stage,
    assumptions: &[Lit],
    tape: &mut L,
    budget: &mut Budget,
) -> Result<Turn, TapeFault>
    requires { IsReady T.Theory assumptions.now stage.old theory.old engine.old }
    ensures turned { IfOk result (IsTurned T.Theory assumptions.now stage.new
        (moment theory.old engine.old budget.old (L.Tape.told tape.old))
        (moment theory.new engine.new budget.new (L.Tape.told tape.new))) }
    ensures stays { Stays T.Theory theory.old theory.new }
    ensures counts { CountsFaults result (L.Tape.faults tape.old) (L.Tape.faults tape.new) }
{
    keeps_laws::<T>();
    if let Propagated::Conflict(id) = engine.propagate() {
        return resolve(alloc, theory, engine, stage, assumptions, id, tape, budget);
    }
    let trail = engine.trail();
    let _before = trail.literals();
    match stage.next(theory, engine, assumptions) {
        Ok(next) => follow(theory, engine, stage, assumptions, next, tape, budget),
        Err(literal) => {
            let reason = trail.reason(literal.atom);
            let found = refute(alloc, engine, assumptions, reason, tape, budget)?;
            Ok(Turn::Ends(found))
        }
    }
}

/// Asks the theory, and decides what is next.
fn follow<T: Theory, L: Tape>(
    theory: &mut T,
    engine: &mut Engine,
    stage: &mut Stage,
    assumptions: &[Lit],
    next: Next,
    tape: &mut L,
    budget: &mut Budget,
) -> Result<Turn, TapeFault>
    requires ready { IsReady T.Theory assumptions.now stage.old theory.old engine.old }
    requires settled { IsSettled engine.old.kept (held engine.old.trail.literals) }
    requires next { IsNext (T.wanted theory.old) assumptions.now stage.old.levels engine.old (Ok next) }
    ensures turned { IfOk result (IsTurned T.Theory assumptions.now stage.new
        (moment theory.old engine.old budget.old (L.Tape.told tape.old))
        (moment theory.new engine.new budget.new (L.Tape.told tape.new))) }
    ensures stays { Stays T.Theory theory.old theory.new }
    ensures counts { CountsFaults result (L.Tape.faults tape.old) (L.Tape.faults tape.new) }
{
    keeps_laws::<T>();
    let trail = engine.trail();
    let _before = trail.literals();
    match ask(theory, engine, next.is_last(), tape, budget)? {
        Checked::Spent => Ok(Turn::Ends(Found::Spent)),
        Checked::Lemma(clause) => {
            let level = lowest_level(engine.trail(), clause.literals());
            keep_at(theory, engine, stage, level, &clause, 0)?;
            Ok(Turn::Moves)
        }
        Checked::Ask(literal) => match next {
            Next::Assume(assumption) => {
                decide_assumption(engine, stage, assumption);
                Ok(Turn::Decides)
            }
            Next::Free(_) => {
                make_place(engine, literal.atom)?;
                decide_free(engine, stage, literal);
                Ok(Turn::Moves)
            }
        },
        Checked::Fine => match next {
            Next::Assume(assumption) => {
                decide_assumption(engine, stage, assumption);
                Ok(Turn::Decides)
            }
            Next::Free(open) => match open {
                Some(atom) => {
                    let literal = stage.choices.literal(atom, theory.phase(atom));
                    decide_free(engine, stage, literal);
                    Ok(Turn::Decides)
                }
                None => Ok(Turn::Ends(Found::Sat)),
            },
        },
    }
}

/// Asks the theory about the trail.
fn ask<T: Theory, L: Tape>(
    theory: &mut T,
    engine: &Engine,
    last: bool,
    tape: &mut L,
    budget: &mut Budget,
) -> Result<Checked, TapeFault>
    requires settled { IsSettled engine.now.kept (held engine.now.trail.literals) }
    requires stands { T.stands theory.old engine.now.trail.literals }
    ensures answered { IfOk result (IsAnswered T.Theory last
        (moment theory.old engine.now budget.old (L.Tape.told tape.old))
        (moment theory.new engine.now budget.new (L.Tape.told tape.new))) }
    ensures stays { Stays T.Theory theory.old theory.new }
    ensures counts { CountsFaults result (L.Tape.faults tape.old) (L.Tape.faults tape.new) }
{
    let answer = theory.check(engine.trail(), engine.clauses(), last, tape, budget)?;
    Ok(answer)
}

/// Decides an assumption.
fn decide_assumption(engine: &mut Engine, stage: &mut Stage, literal: Lit)
    requires reserved { literal.atom < engine.old.trail.reserved }
    requires unassigned { value_of engine.old.trail.literals literal.atom ≡ None }
    requires settled { IsSettled engine.old.kept (held engine.old.trail.literals) }
    ensures searching { (wanted : List ℕ) (assumptions : List TheLit)
        → IsSearching wanted assumptions stage.old.levels stage.old.next engine.old
        → is_among assumptions literal ≡ true → current_level engine.old.trail.literals ≤ stage.old.levels
        → IsSearching wanted assumptions stage.new.levels stage.new.next engine.new }
    ensures engine { engine.new ≡ record engine.old {
      trail = record engine.old.trail { literals = decided engine.old.trail.literals literal };
    } }
    ensures within { length engine.old.trail.literals < engine.old.trail.reserved }
{
    let trail = engine.trail();
    let _before = trail.literals();
    engine.decide(literal);
    let after = engine.trail();
    let _length = after.len();
    stage.levels = after.current_level();
}

/// Decides a literal where all assumptions are true.
fn decide_free(engine: &mut Engine, stage: &mut Stage, literal: Lit)
    requires reserved { literal.atom < engine.old.trail.reserved }
    requires unassigned { value_of engine.old.trail.literals literal.atom ≡ None }
    requires settled { IsSettled engine.old.kept (held engine.old.trail.literals) }
    ensures searching { (wanted : List ℕ) (assumptions : List TheLit)
        → IsSearching wanted assumptions stage.old.levels stage.old.next engine.old
        → are_true (held engine.old.trail.literals) assumptions ≡ true
        → IsSearching wanted assumptions stage.new.levels stage.new.next engine.new }
    ensures engine { engine.new ≡ record engine.old {
      trail = record engine.old.trail { literals = decided engine.old.trail.literals literal };
    } }
    ensures within { length engine.old.trail.literals < engine.old.trail.reserved }
{
    let trail = engine.trail();
    let _before = trail.literals();
    stage.levels = lower(stage.levels, trail.current_level());
    engine.decide(literal);
    let _length = engine.trail().len();
}

/// The lower level.
fn lower(one: usize, other: usize) -> usize
    ensures one { result ≤ one }
    ensures other { result ≤ other }
    ensures is_one { result < other → result ≡ one }
{
    if one <= other { one } else { other }
}
