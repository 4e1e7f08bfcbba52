//! The literals of live assertions, and of assumptions.

ghost use Rattle.std.specs.Prelude.{◌≡◌, ◌<◌, ◌∷◌, ◌++◌, [], true, length, IfOk, OnOk};
ghost use Rattle.sb_solve.specs.Words.{All, CountsTapeFault, HaveRegexesBelow, IsStoreOf, is_decided, is_well_sorted, list_all, live, live_terms, state_of};
ghost use Rattle.sb_solve.specs.Stating.{Assumes, IsAssertionAt, States, AreStated};

use sb_lit::Lit;
use sb_proof::{Tape, TapeFault};
use sb_refute::Evidence;
use sb_regex::Arena;
use sb_rulebook::laws::{fitting_is_translated, translation_stays};
use sb_stack::{Assumption, Stack};
use sb_store::Store;
use sb_term::TermId;
use std::alloc::{AllocError, Global};

/// A term that is asserted, and the level of the assertion.
#[derive(Drop)]
struct Stated {
    term: TermId,
    level: u64,
}

/// The literals of the live assertions at these places, in order. The clause of each stands in the proof then, with the
/// lines that it lacked.
pub(crate) fn literals<L: Tape>(
    alloc: Global,
    evidence: &mut Evidence,
    store: &mut Store,
    stack: &Stack,
    places: &[usize],
    tape: &mut L,
) -> Result<Vec<Lit>, TapeFault>
    requires places { All (λ place. place < length stack.now.assertions) places.now }
    requires decided { list_all is_decided (live (state_of stack.now)) ≡ true }
    requires sorted { list_all is_well_sorted (live_terms (state_of stack.now)) ≡ true }
    requires store { IsStoreOf stack.now.table store.old }
    requires regexes { HaveRegexesBelow (length store.old.arena) evidence.old.atoms }
    ensures stated { IfOk result (λ literals. AreStated stack.now places.now store.old store.new evidence.old
        evidence.new (L.Tape.told tape.old) (L.Tape.told tape.new) literals.items) }
    ensures counts { CountsTapeFault result (L.Tape.faults tape.old) (L.Tape.faults tape.new) }
{
    translation_stays();
    let mut literals = Vec::new(alloc);
    for place in places {
        let literal = state(evidence, store, stack, *place, tape)?;
        put(&mut literals, literal)?;
    }
    Ok(literals)
}

/// The literals of the assumptions, in order. The atom of each stands in the proof then, with the lines that it lacked.
pub(crate) fn assumed<L: Tape>(
    alloc: Global,
    evidence: &mut Evidence,
    arena: &Arena,
    given: &[Assumption],
    tape: &mut L,
) -> Result<Vec<Lit>, TapeFault>
    requires regexes { HaveRegexesBelow (length arena.now) evidence.old.atoms }
    ensures assumes { IfOk result (λ literals. Assumes given.now arena.now evidence.old evidence.new
        (L.Tape.told tape.old) (L.Tape.told tape.new) literals.items) }
    ensures counts { CountsTapeFault result (L.Tape.faults tape.old) (L.Tape.faults tape.new) }
{
    let mut literals = Vec::new(alloc);
    for assumption in given {
        let literal = assume(evidence, arena, *assumption, tape)?;
        put(&mut literals, literal)?;
    }
    Ok(literals)
}

/// The literal of an assumption, whose atom stands in the proof then.
fn assume<L: Tape>(
    evidence: &mut Evidence,
    arena: &Arena,
    assumption: Assumption,
    tape: &mut L,
) -> Result<Lit, TapeFault>
    requires regexes { HaveRegexesBelow (length arena.now) evidence.old.atoms }
    ensures assumes { IfOk result (λ literal. Assumes (assumption ∷ []) arena.now evidence.old evidence.new
        (L.Tape.told tape.old) (L.Tape.told tape.new) (literal ∷ [])) }
    ensures counts { CountsTapeFault result (L.Tape.faults tape.old) (L.Tape.faults tape.new) }
{
    let literal = evidence.assume(arena, assumption.serial, assumption.positive, tape)?;
    Ok(literal)
}

/// The literals, and behind them the others.
pub(crate) fn joined(literals: Vec<Lit>, others: &[Lit]) -> Result<Vec<Lit>, AllocError>
    ensures { IfOk result (λ all. all.items ≡ literals.items ++ others.now) }
{
    let mut all = literals;
    all.extend_from_slice(others)?;
    Ok(all)
}

/// Puts a literal behind the others.
fn put(literals: &mut Vec<Lit>, literal: Lit) -> Result<(), AllocError>
    ensures { OnOk result (literals.new.items ≡ literals.old.items ++ literal ∷ []) }
{
    literals.push(literal)?;
    Ok(())
}

/// The literal of the live assertion at a place, whose clause stands in the proof then, with the lines that it lacked.
fn state<L: Tape>(
    evidence: &mut Evidence,
    store: &mut Store,
    stack: &Stack,
    place: usize,
    tape: &mut L,
) -> Result<Lit, TapeFault>
    requires there { place < length stack.now.assertions }
    requires decided { list_all is_decided (live (state_of stack.now)) ≡ true }
    requires sorted { list_all is_well_sorted (live_terms (state_of stack.now)) ≡ true }
    requires store { IsStoreOf stack.now.table store.old }
    requires regexes { HaveRegexesBelow (length store.old.arena) evidence.old.atoms }
    ensures states { IfOk result (States stack.now place store.old store.new evidence.old evidence.new
        (L.Tape.told tape.old) (L.Tape.told tape.new)) }
    ensures counts { CountsTapeFault result (L.Tape.faults tape.old) (L.Tape.faults tape.new) }
{
    fitting_is_translated();
    let stated = assertion_at(stack, place);
    let found = evidence.statement(store, stack.table(), place, stated.term, stated.level, tape)?;
    match found {
        Some(asserted) => Ok(asserted.literal),
        None => unreachable!(),
    }
}

/// The term of the live assertion at a place, and its level.
fn assertion_at(stack: &Stack, place: usize) -> Stated
    requires there { place < length stack.now.assertions }
    requires decided { list_all is_decided (live (state_of stack.now)) ≡ true }
    ensures { IsAssertionAt stack.now place result.term result.level }
{
    let _sorts = stack.sorts();
    let assertions = stack.assertions();
    let assertion = &assertions[place];
    let Some(term) = assertion.term else {
        unreachable!();
    };
    Stated {
        term,
        level: assertion.level,
    }
}
