//! The whole search.

ghost use Rattle.std.specs.Prelude.{◌≡◌, ℕ, ◌≤◌, List, [], true, IfOk, OnOk};
ghost use Rattle.sb_lit.specs.declared.clause.Lit.{Lit as TheLit};
ghost use Rattle.sb_lit.specs.declared.clause.ClauseId.{ClauseId as TheId};
ghost use Rattle.sb_clauses.specs.Propagation.{are_reserved};
ghost use Rattle.sb_analyze.specs.Reasons.{AreReasoned};
ghost use Rattle.sb_search.specs.Asking.{AreAllKnown, HasKnownAtoms, CountsFaults};
ghost use Rattle.sb_search.specs.Following.{Follows, FollowsByLevel, AreRefuted};
ghost use Rattle.sb_search.specs.Found.{GrowsTo, IsFound};
ghost use Rattle.sb_search.specs.Searching.{have_places, Widens};
ghost use Rattle.sb_search.specs.Turning.{Stays, GoesBack, IsReady, IsTurned, moment};
ghost use Rattle.sb_search.specs.Writing.{written};
ghost use Rattle.sb_search.specs.declared.found.Found.TheVariants.{Sat, Unsat};
ghost use Rattle.sb_search.specs.declared.turn.Turn.TheVariants.{Ends};

use crate::choices::Choices;
use crate::found::Found;
use crate::lemma::{backtrack, keeps_laws, make_place, make_room};
use crate::restarts::Restarts;
use crate::stage::Stage;
use crate::theory::Theory;
use crate::turn::{Turn, take_turn};
use sb_clauses::Engine;
use sb_lit::{Budget, Lit};
use sb_proof::{Tape, TapeFault};
use std::alloc::{AllocError, Global};
use std::mem;

/// Searches for a trail on which all wanted atoms have values, no kept clause is false, all assumptions are true, and
/// with which the theory agrees; or for a kept clause of negated assumptions alone.
///
/// Assumptions are decided first, in their order, and then atoms that are wanted: that which was met most in conflicts
/// of late, as the theory's values would have it, or else as it was last, and false at first. At some conflicts the
/// search begins again at level 0. Behind each propagation that comes to its end without a false clause the theory is
/// asked, but where an assumption is false. A literal that it asks for is decided next, once all assumptions are. Each
/// conflict that is learned from spends a step of the budget, before its line is put. `Spent` comes only where the budget
/// is spent.
///
/// What stands on the trail stays there, but for what the search takes back of it at its beginning: all above level 0.
/// What is kept behind the clauses that were there follows from them and from what the theory teaches, level by level.
/// So the clause of an `Unsat` refutes the assumptions.
///
/// How the atoms were met in conflicts, and the value that each lost last, stay in the choices, for the next search.
/// Beside what is propagated and the turns, the time is linear in the wanted atoms and in the atoms that are new to the
/// engine or to the choices.
///
/// After an error nothing is said of the clauses and the trail, and the choices may be new ones. `NoMemory` only for want
/// of memory.
pub fn search<T: Theory, L: Tape>(
    alloc: Global,
    theory: &mut T,
    engine: &mut Engine,
    choices: &mut Choices,
    tape: &mut L,
    assumptions: &[Lit],
    budget: &mut Budget,
) -> Result<Found, TapeFault>
    requires reasoned { AreReasoned engine.old.kept [] engine.old.trail.literals }
    requires stands { T.stands theory.old engine.old.trail.literals }
    requires passes { HasKnownAtoms (T.passes theory.old) engine.old.kept assumptions.now }
    ensures found { IfOk result (IsFound (T.wanted theory.new) assumptions.now engine.new budget.new) }
    ensures agrees { IfOk result (λ found. found ≡ Sat → T.agrees theory.new engine.new.trail.literals) }
    ensures kept { OnOk result (GrowsTo engine.old.kept engine.new.kept) }
    ensures follows { OnOk result (Follows (T.teaches theory.new) engine.old.kept engine.new.kept) }
    ensures follows_by_level { OnOk result
        (FollowsByLevel (T.teaches theory.new) engine.old.kept engine.new.kept) }
    ensures refuted { IfOk result (λ found. (id : TheId) → found ≡ Unsat id
        → AreRefuted (T.teaches theory.new) engine.old.kept assumptions.now) }
    ensures reasoned { OnOk result (AreReasoned engine.new.kept [] engine.new.trail.literals) }
    ensures stands { OnOk result (T.stands theory.new engine.new.trail.literals) }
    ensures limit { OnOk result (budget.new.limit ≡ budget.old.limit) }
    ensures spends { OnOk result (budget.old.spent ≤ budget.new.spent) }
    ensures known { OnOk result (AreAllKnown (T.passes theory.new) engine.new.kept) }
    ensures puts { OnOk result (T.puts theory.old theory.new
        (written engine.old.kept budget.old (L.Tape.told tape.old))
        (written engine.new.kept budget.new (L.Tape.told tape.new))) }
    ensures wanted { T.wanted theory.new ≡ T.wanted theory.old }
    ensures passes { (atom : ℕ) → T.passes theory.old atom → T.passes theory.new atom }
    ensures teaches { (clause : List TheLit) → T.teaches theory.old clause → T.teaches theory.new clause }
    ensures counts { CountsFaults result (L.Tape.faults tape.old) (L.Tape.faults tape.new) }
{
    let mut stage = Stage {
        levels: 0,
        next: 0,
        at: 0,
        choices: mem::replace(choices, Choices::new(alloc)),
        restarts: Restarts::new(),
    };
    let found = run(alloc, theory, engine, &mut stage, assumptions, tape, budget)?;
    drop(mem::replace(choices, stage.choices));
    Ok(found)
}

/// Begins, and takes turns until the search ends. Each round of the outermost loop spends a step; each round of the
/// next one lets the measure fall, where no step is spent; each round of the innermost makes the trail longer.
fn run<T: Theory, L: Tape>(
    alloc: Global,
    theory: &mut T,
    engine: &mut Engine,
    stage: &mut Stage,
    assumptions: &[Lit],
    tape: &mut L,
    budget: &mut Budget,
) -> Result<Found, TapeFault>
    requires reasoned { AreReasoned engine.old.kept [] engine.old.trail.literals }
    requires stands { T.stands theory.old engine.old.trail.literals }
    requires passes { HasKnownAtoms (T.passes theory.old) engine.old.kept assumptions.now }
    ensures turned { IfOk result (λ found. IsTurned T.Theory assumptions.now stage.new
        (moment theory.old engine.old budget.old (L.Tape.told tape.old))
        (moment theory.new engine.new budget.new (L.Tape.told tape.new)) (Ends found)) }
    ensures stays { Stays T.Theory theory.old theory.new }
    ensures counts { CountsFaults result (L.Tape.faults tape.old) (L.Tape.faults tape.new) }
{
    keeps_laws::<T>();
    begin(theory, engine, stage, assumptions)?;
    'steps: loop {
        let start = budget.spent();
        'moves: loop {
            'decisions: loop {
                match take_turn(alloc, theory, engine, stage, assumptions, tape, budget)? {
                    Turn::Ends(found) => return Ok(found),
                    Turn::Decides => {}
                    Turn::Moves => {
                        if budget.spent() > start {
                            continue 'steps;
                        }
                        continue 'moves;
                    }
                }
            }
        }
    }
}

/// Goes back to level 0, and makes places for all atoms.
fn begin<T: Theory>(
    theory: &mut T,
    engine: &mut Engine,
    stage: &mut Stage,
    assumptions: &[Lit],
) -> Result<(), AllocError>
    requires reasoned { AreReasoned engine.old.kept [] engine.old.trail.literals }
    requires stands { T.stands theory.old engine.old.trail.literals }
    requires passes { HasKnownAtoms (T.passes theory.old) engine.old.kept assumptions.now }
    ensures ready { OnOk result (IsReady T.Theory assumptions.now stage.new theory.new engine.new) }
    ensures kept { OnOk result (engine.new.kept ≡ engine.old.kept) }
    ensures back { GoesBack T.Theory theory.old theory.new }
{
    let trail = engine.trail();
    let _before = trail.literals();
    backtrack(theory, engine, stage, 0);
    make_room(engine)?;
    stage.choices.begin();
    place_wanted(theory, engine, &mut stage.choices)?;
    place_all(engine, assumptions)?;
    Ok(())
}

/// Makes places for the wanted atoms, which wait then.
fn place_wanted<T: Theory>(
    theory: &T,
    engine: &mut Engine,
    choices: &mut Choices,
) -> Result<(), AllocError>
    ensures widens { OnOk result (Widens engine.old engine.new) }
    ensures places { OnOk result (have_places engine.new.trail.reserved (T.wanted theory.now) ≡ true) }
{
    let mut at: u64 = 0;
    while let Some(atom) = theory.wanted_at(at) {
        make_place(engine, atom)?;
        choices.want(atom)?;
        at += 1;
    }
    Ok(())
}

/// Makes places for the atoms of literals.
fn place_all(engine: &mut Engine, literals: &[Lit]) -> Result<(), AllocError>
    ensures widens { OnOk result (Widens engine.old engine.new) }
    ensures places { OnOk result (are_reserved engine.new.trail.reserved literals.now ≡ true) }
{
    for literal in literals {
        make_place(engine, literal.atom)?;
    }
    Ok(())
}
