//! The check of the live assertions.

ghost use Rattle.std.specs.Prelude.{◌≡◌, ◌<◌, ◌≤◌, true, false, length, IfOk, OnOk};
ghost use Rattle.sb_solve.specs.Words.{All, AllKept, AreTerms, Backs, CountsTapeFault, Evidences, Grows, HaveRegexesBelow, IsCounted, IsStoreOf, are_declared, asked_in, is_decided, is_well_sorted, list_all, live, live_terms, state_of};
ghost use Rattle.sb_solve.specs.Solved.{AreOfLevels, IsSolved};
ghost use Rattle.sb_solve.specs.Truth.{IsTrue};

use crate::searching::search_for;
use crate::settling::settle;
use crate::stating::{assumed, joined, literals};
use sb_lit::{Budget, ClauseId};
use sb_proof::{Tape, TapeFault};
use sb_refute::Evidence;
use sb_rulebook::laws::translation_stays;
use sb_sound::steps::{counted_again_stays_sound, follows_by_rule, line_stays_sound};
use sb_stack::Stack;
use sb_store::{Store, regexes_grow};
use sb_word::Word;
use std::alloc::Global;

/// What a check comes to.
#[derive(Drop)]
pub enum Solved {
    /// Words and truth values, the one of each constant at its serial: those of the constants that occur in these
    /// assertions and in the assumptions make them true, whatever the others are. A constant without a word has the
    /// empty one; truth values past the last one are false.
    Sat {
        words: Vec<Option<Word>>,
        truths: Vec<bool>,
    },
    /// The number of a clause that stands in the proof, and denies assumptions alone: no values make the assertions and
    /// these assumptions true.
    Unsat(ClauseId),
    /// The budget is spent.
    Spent,
}

/// Decides whether some values make the live assertions at these places true, of Boolean structure as all live ones
/// are, with the assumptions of the check: the clause of each assertion stands in the proof then, with the atom of each
/// assumption and the clauses of all gates, and those that say which memberships without constants are true; behind
/// them the lines of a search over these clauses. A step of the budget is spent for each line that is counted. Where
/// `proves` is false, what is put proves nothing: no regex is explored to its end for a lemma, and a step is spent for
/// each lemma and each learned clause, and for each of those that say what memberships without constants are.
///
/// The time is that of the search, which may be exponential in the atoms, and of what is explored of regexes.
/// `NoMemory` only for want of memory. After an error the evidence may be empty and the store too, and
/// nothing more may be put.
pub fn solve<L: Tape>(
    alloc: Global,
    evidence: &mut Evidence,
    store: &mut Store,
    stack: &Stack,
    places: &[usize],
    proves: bool,
    tape: &mut L,
    budget: &mut Budget,
) -> Result<Solved, TapeFault>
    requires places { All (λ place. place < length stack.now.assertions) places.now }
    requires decided { list_all is_decided (live (state_of stack.now)) ≡ true }
    requires sorted { list_all is_well_sorted (live_terms (state_of stack.now)) ≡ true }
    requires store { IsStoreOf stack.now.table store.old }
    requires regexes { HaveRegexesBelow (length store.old.arena) evidence.old.atoms }
    requires declared { are_declared (state_of stack.now).sorts evidence.old.atoms ≡ true }
    ensures puts { OnOk result (proves ≡ true → (before : AllKept)
        → Backs store.old.arena store.old.graph.memo evidence.old before
        → IsCounted (asked_in (state_of stack.now)) before budget.old
        → Evidences (asked_in (state_of stack.now)) before store.new.arena store.new.graph.memo evidence.new budget.new
        (L.Tape.told tape.old) (L.Tape.told tape.new)) }
    ensures answer { IfOk result
        (IsSolved stack.now places.now store.old.arena store.old.graph.memo evidence.old evidence.new budget.new) }
    ensures sound { OnOk result (proves ≡ false → AreTerms (asked_in (state_of stack.now))
        → IsTrue (asked_in (state_of stack.now)) store.old.arena store.old.graph.memo evidence.old
        → IsTrue (asked_in (state_of stack.now)) store.new.arena store.new.graph.memo evidence.new) }
    ensures levels { OnOk result (AreOfLevels (asked_in (state_of stack.now)).live evidence.old.asserted
        evidence.new.asserted) }
    ensures limit { OnOk result (budget.new.limit ≡ budget.old.limit) }
    ensures spends { OnOk result (budget.old.spent ≤ budget.new.spent) }
    ensures store { OnOk result (Grows stack.now.table store.old store.new) }
    ensures regexes { OnOk result (HaveRegexesBelow (length store.new.arena) evidence.new.atoms) }
    ensures declared { OnOk result (are_declared (state_of stack.now).sorts evidence.new.atoms ≡ true) }
    ensures counts { CountsTapeFault result (L.Tape.faults tape.old) (L.Tape.faults tape.new) }
{
    regexes_grow();
    follows_by_rule();
    line_stays_sound();
    counted_again_stays_sound();
    translation_stays();
    let stated = literals(alloc, evidence, store, stack, places, tape)?;
    let assumed = assumed(alloc, evidence, &store.arena, stack.assumptions(), tape)?;
    let asked = joined(stated, &assumed)?;
    evidence.stands();
    let found = settle(alloc, evidence, store, &asked, proves, tape, budget)?;
    let Some(ends) = found else {
        return Ok(Solved::Spent);
    };
    let all = joined(asked, &ends)?;
    search_for(
        alloc, evidence, store, stack, &all, &assumed, proves, tape, budget,
    )
}
