//! Lemmas of the theory, and going back.

ghost use Rattle.std.specs.Prelude.{◌≡◌, ◌<◌, List, true, Some, None, OnOk, IfOk};
ghost use Rattle.sb_lit.specs.Clauses.{is_true_under};
ghost use Rattle.sb_trail.specs.declared.assigned.Assigned.{Assigned};
ghost use Rattle.sb_trail.specs.Assignments.{held, up_to};
ghost use Rattle.sb_clauses.specs.Propagation.{has_room_for};
ghost use Rattle.sb_analyze.specs.Reasons.{level_in};
ghost use Rattle.sb_search.specs.Searching.{IsKept, Widens, IsLowest, IsHighest, IsSecond, false_from, higher, is_but};
ghost use Rattle.sb_search.specs.Turning.{GoesBack, HasLaws, Keeps};

use crate::stage::Stage;
use crate::theory::Theory;
use sb_clauses::Engine;
use sb_lit::{Clause, ClauseId, Lit};
use sb_trail::Trail;
use std::alloc::AllocError;

/// What the laws of a theory say.
pub(crate) fn keeps_laws<T: Theory>()
    ensures { HasLaws T.Theory }
{}

/// Takes the levels above this one back, and keeps a clause.
pub(crate) fn keep_at<T: Theory>(
    theory: &mut T,
    engine: &mut Engine,
    stage: &mut Stage,
    level: usize,
    clause: &Clause,
    clause_level: u64,
) -> Result<(), AllocError>
    ensures keeps { OnOk result (Keeps T.Theory theory.old theory.new engine.old engine.new
        stage.old.levels stage.old.next stage.new level (record { literals = clause.now; level = clause_level })) }
    ensures back { GoesBack T.Theory theory.old theory.new }
{
    let trail = engine.trail();
    let _before = trail.literals();
    backtrack(theory, engine, stage, level);
    keep(engine, clause, clause_level)?;
    Ok(())
}

/// Takes the levels above this one back.
pub(crate) fn backtrack<T: Theory>(
    theory: &mut T,
    engine: &mut Engine,
    stage: &mut Stage,
    level: usize,
)
    ensures engine { engine.new
        ≡ record engine.old { trail = record engine.old.trail { literals = up_to level engine.old.trail.literals } } }
    ensures levels { stage.new.levels ≡ stage.old.levels }
    ensures next { stage.new.next ≡ 0 }
    ensures stands { (entries : List Assigned) → T.stands theory.old entries → T.stands theory.new (up_to level entries) }
    ensures back { GoesBack T.Theory theory.old theory.new }
{
    stage.choices.backtrack(engine.trail().literals(), level);
    engine.backtrack(level);
    theory.backtrack(level);
    stage.next = 0;
    stage.at = 0;
}

/// Keeps a clause, and makes places for its atoms.
pub(crate) fn keep(engine: &mut Engine, clause: &Clause, level: u64) -> Result<ClauseId, AllocError>
    ensures { IfOk result (IsKept engine.old engine.new (record { literals = clause.now; level = level })) }
{
    let id = engine.add(clause, level)?;
    make_room(engine)?;
    Ok(id)
}

/// Makes places for all atoms of kept clauses.
pub(crate) fn make_room(engine: &mut Engine) -> Result<(), AllocError>
    ensures widens { OnOk result (Widens engine.old engine.new) }
    ensures room { OnOk result (has_room_for engine.new.trail.reserved engine.new.kept ≡ true) }
{
    let atoms = engine.atoms();
    engine.reserve(atoms)?;
    Ok(())
}

/// Makes a place for an atom.
pub(crate) fn make_place(engine: &mut Engine, atom: u64) -> Result<(), AllocError>
    ensures widens { OnOk result (Widens engine.old engine.new) }
    ensures place { OnOk result (atom < engine.new.trail.reserved) }
{
    match atom.checked_add(1) {
        Some(atoms) => engine.reserve(atoms as usize),
        None => Err(AllocError),
    }
}

/// The lowest level on which a clause is false or leaves one literal, where there is one below the current level; else a
/// level that leaves the trail as it is.
pub(crate) fn lowest_level(trail: &Trail, clause: &[Lit]) -> usize
    ensures { IsLowest trail.now.literals clause.now result }
{
    let Some(last) = highest_but(trail, clause, None) else {
        return 0;
    };
    let level = second_level(trail, clause, last);
    let _entries = trail.literals();
    if is_true_up_to(trail, level, last) {
        trail.current_level()
    } else {
        level
    }
}

/// The level from which on all literals but this one are false.
fn second_level(trail: &Trail, clause: &[Lit], last: Lit) -> usize
    requires { IsHighest trail.now.literals clause.now None (Some last) }
    ensures { IsSecond trail.now.literals clause.now last result }
{
    match highest_but(trail, clause, Some(last)) {
        Some(second) => false_from(trail, second),
        None => 0,
    }
}

/// A literal of those that are false from the highest level on, among those that are not this one.
fn highest_but(trail: &Trail, clause: &[Lit], but: Option<Lit>) -> Option<Lit>
    ensures { IsHighest trail.now.literals clause.now but result }
{
    let mut best: Option<Lit> = None;
    for literal in clause {
        best = higher(trail, best, *literal, but);
    }
    best
}

/// The literal that is false from the higher level on, but for this one.
fn higher(trail: &Trail, best: Option<Lit>, literal: Lit, but: Option<Lit>) -> Option<Lit>
    ensures { result ≡ higher trail.now.literals but best literal }
{
    if is_but(but, literal) {
        return best;
    }
    let Some(other) = best else {
        return Some(literal);
    };
    if false_from(trail, literal) <= false_from(trail, other) {
        Some(other)
    } else {
        Some(literal)
    }
}

/// Whether the literal is this one.
fn is_but(but: Option<Lit>, literal: Lit) -> bool
    ensures { result ≡ is_but but literal }
{
    match but {
        Some(other) => literal == other,
        None => false,
    }
}

/// The level from which on a literal is false; where it is not, the number of literals on the trail, which no level is
/// above.
fn false_from(trail: &Trail, literal: Lit) -> usize
    ensures { result ≡ false_from trail.now.literals literal }
{
    if is_true(trail, literal.negated()) {
        level_of(trail, literal)
    } else {
        trail.len()
    }
}

/// Whether a literal is true up to a level.
fn is_true_up_to(trail: &Trail, level: usize, literal: Lit) -> bool
    ensures { result ≡ is_true_under (held (up_to level trail.now.literals)) literal }
{
    let _entries = trail.literals();
    is_true(trail, literal) & (level_of(trail, literal) <= level)
}

/// Whether a literal is true.
fn is_true(trail: &Trail, literal: Lit) -> bool
    ensures { result ≡ is_true_under (held trail.now.literals) literal }
{
    trail.literal_value(literal).unwrap_or(false)
}

/// The level of a literal, 0 where it has no value.
fn level_of(trail: &Trail, literal: Lit) -> usize
    ensures { result ≡ level_in trail.now.literals literal }
{
    trail.level(literal.atom).unwrap_or(0)
}
