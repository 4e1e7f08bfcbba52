//! Checks, from what is known before any search to the verdict.

ghost use Rattle.std.specs.Prelude.{◌≡◌, ℕ, ◌||◌, ◌&&◌, ◌==◌, [], true, false, length, IsSome, IfOk, OnOk};
ghost use Rattle.std.specs.List.{list_all};
ghost use Rattle.sb_script.specs.State.{live, live_terms};
ghost use Rattle.sb_script.specs.Steps.{line};
ghost use Rattle.sb_script.specs.Verdicts.{IsVerdict};
ghost use Rattle.sb_script.specs.Fragment.{is_decided};
ghost use Rattle.sb_script.specs.WellSorted.{is_well_sorted};
ghost use Rattle.sb_rulebook.specs.Accepted.{asked_in};
ghost use Rattle.sb_rulebook.specs.Judging.{Progress};
ghost use Rattle.sb_rulebook.specs.Kept.{AllKept};
ghost use Rattle.sb_rulebook.specs.Lines.{text_of, verdict_line};
ghost use Rattle.sb_proof.specs.Tapes.{with_bytes};
ghost use Rattle.sb_stack.specs.Stacked.{Stacked, given_in, question_of, state_of, live_constants, without_words};
ghost use Rattle.sb_stack.specs.Steps.{verdict_in, found};
ghost use Rattle.sb_atoms.specs.Numbered.{HaveRegexesBelow};
ghost use Rattle.sb_store.specs.Stores.{KnowsMore};
ghost use Rattle.sb_trace.specs.Putting.{IsCounted, CountsTapeFault};
ghost use Rattle.sb_refute.specs.Backing.{Backs, Evidences};
ghost use Rattle.sb_sound.specs.SoundLaws.{AreTerms};
ghost use Rattle.sb_sound.specs.ScriptLaws.{IsFit};
ghost use Rattle.sb_decide.specs.Knowing.{Knows};
ghost use Rattle.sb_decide.specs.Ready.{IsDecided};
ghost use Rattle.sb_solve.specs.Words.{are_declared};
ghost use Rattle.sb_solve.specs.Truth.{IsTrue};
ghost use Rattle.sb_solve.specs.Values.{truth_in};
ghost use Rattle.sb_prover.specs.Proving.{IsAbreast, IsProved, HasSpent, HaveLevels};
ghost use Rattle.sb_prover.specs.Checking.{IsAsked, AreAsked, AreDenied, Finds, AreTruthsAmong, AreTruthsOf, is_assumed, IsReadyThen, IsCompleted, IsSolution, SaysTrue, verdict_of, said_by, IsNumbered};

use crate::prover::Prover;
use crate::verdict::{number_of, say, say_values, truth_at};
use sb_decide::{Decided, Decider, knows_grown, ready_grown};
use sb_fragment::fragment_is_of_each;
use sb_lang::normal::normal_has_terms_words;
use sb_lit::{Budget, ClauseId};
use sb_proof::{Said, Tape, TapeFault};
use sb_refute::Evidence;
use sb_solve::{Solved, denied, mark, solve};
use sb_sound::scripts::{clause_refutes, entries_lead_on};
use sb_sound::steps::{counted_again_stays_sound, follows_by_rule, line_stays_sound};
use sb_stack::{Assumption, Stack, Verdict};
use sb_term::Serial;
use sb_word::Word;
use std::alloc::{AllocError, Global};

/// What a check comes to.
#[derive(Drop)]
pub(crate) enum Solution {
    /// Words and truth values of a model, the one of each constant at its serial. Each constant that was declared has a
    /// word; truth values past the last one are false.
    Sat {
        words: Vec<Word>,
        truths: Vec<bool>,
    },
    /// The number of a clause that stands in the proof, and the assumptions that it denies: it says nothing else.
    Unsat {
        clause: ClauseId,
        core: Vec<Assumption>,
    },
    /// A check may have no more lines.
    Spent,
    /// Not each live assertion is a decided one.
    Outside,
}

impl Prover {
    /// Answers a check of which this is known ([`Decider::decide`]), under the stack's assumptions: `Outside` where it
    /// is outside, `Unsat` where the empty clause stands in the proof, else what a search finds over the live
    /// assertions that refute the check, where a constant has no word, or over those of other structure and the
    /// memberships of their constants; and `Unknown` where a check may have no more lines, or without lines no more
    /// steps: where a search is made, `budget` is then one of 2^64 - 1 steps, of which those of the search are spent.
    /// Where there are neither such assertions nor assumptions nothing is searched. An `Unsat` has the assumptions that
    /// the clause denies to which the search came. Where `proves` is true, puts the lines that prove the verdict, the
    /// verdict's own line as the last; else what is put proves nothing, no lines of regexes are made for a lemma, and a
    /// check in which a constant has no word is `Unsat` at once, of no assumptions.
    ///
    /// Linear in the lines and in the assumptions, and for a `Sat` in the constants and their characters; the time is
    /// that of the search, which may be exponential in the atoms of those assertions, and of what is explored that was
    /// not yet. Of the script's state it changes the mode and the kept words alone. After an error nothing more may be
    /// put, and nothing more asked of the decider.
    pub fn check<L: Tape>(
        &mut self,
        decider: &mut Decider,
        stack: &mut Stack,
        decided: Decided,
        proves: bool,
        tape: &mut L,
        budget: &mut Budget,
    ) -> Result<Verdict, TapeFault>
        requires knows { Knows decider.old stack.old }
        requires decided { IsDecided decider.old stack.old decided }
        requires fit { IsFit (state_of stack.old) }
        requires sorted { list_all is_well_sorted (live_terms (state_of stack.old)) ≡ true }
        requires regexes { HaveRegexesBelow (length decider.old.store.arena) self.old.evidence.atoms }
        requires declared { are_declared (state_of stack.old).sorts self.old.evidence.atoms ≡ true }
        requires sound { IsTrue (asked_in (state_of stack.old)) decider.old.store.arena decider.old.store.graph.memo
            self.old.evidence }
        ensures proves { IfOk result (λ v. proves ≡ true → (before : Progress)
            → IsAbreast decider.old.store self.old before
            → IsProved (question_of stack.old) (verdict_in (live_constants stack.old) v) before
            decider.new.store self.new (L.Tape.told tape.old) (L.Tape.told tape.new)) }
        ensures verdict { IfOk result
            (λ v. IsVerdict (state_of stack.old) (given_in stack.old) (verdict_in (live_constants stack.old) v)) }
        ensures spent { IfOk result (λ v. HasSpent budget.new v) }
        ensures regexes { OnOk result (HaveRegexesBelow (length decider.new.store.arena) self.new.evidence.atoms) }
        ensures declared { OnOk result (are_declared (state_of stack.old).sorts self.new.evidence.atoms ≡ true) }
        ensures knows { IfOk result (λ v. Knows decider.new (found v stack.new)) }
        ensures store { OnOk result (KnowsMore decider.old.store decider.new.store) }
        ensures rest { without_words stack.new ≡ without_words stack.old }
        ensures levels { OnOk result (HaveLevels (asked_in (state_of stack.old)).live self.old.evidence
            → HaveLevels (asked_in (state_of stack.old)).live self.new.evidence) }
        ensures sound { OnOk result (IsTrue (asked_in (state_of stack.old)) decider.new.store.arena
            decider.new.store.graph.memo self.new.evidence) }
        ensures counts { CountsTapeFault result (L.Tape.faults tape.old) (L.Tape.faults tape.new) }
    {
        if !proves && let Decided::Dead = decided {
            return Ok(Verdict::Unsat(no_assumptions(self.alloc)));
        }
        entries_lead_on();
        clause_refutes();
        let _given = stack.assumptions();
        self.begin(tape)?;
        let solution = self.solution(decider, stack, decided, proves, tape, budget)?;
        say_solution(self.alloc, stack, &solution, proves, tape)?;
        Ok(verdict_of(solution))
    }

    /// What a check comes to.
    fn solution<L: Tape>(
        &mut self,
        decider: &mut Decider,
        stack: &mut Stack,
        decided: Decided,
        proves: bool,
        tape: &mut L,
        budget: &mut Budget,
    ) -> Result<Solution, TapeFault>
        requires knows { Knows decider.old stack.old }
        requires decided { IsDecided decider.old stack.old decided }
        requires terms { AreTerms (asked_in (state_of stack.old)) }
        requires sorted { list_all is_well_sorted (live_terms (state_of stack.old)) ≡ true }
        requires regexes { HaveRegexesBelow (length decider.old.store.arena) self.old.evidence.atoms }
        requires declared { are_declared (state_of stack.old).sorts self.old.evidence.atoms ≡ true }
        requires sound { IsTrue (asked_in (state_of stack.old)) decider.old.store.arena decider.old.store.graph.memo
            self.old.evidence }
        ensures means { IfOk result (SaysTrue stack.old self.new.evidence) }
        ensures solved { IfOk result (λ r. proves ≡ true → (before : AllKept)
            → Backs decider.old.store.arena decider.old.store.graph.memo self.old.evidence before
            → before.counted ≡ 0 → IsSolution stack.old before decider.new.store self.new.evidence r
            (L.Tape.told tape.old) (L.Tape.told tape.new)) }
        ensures spent { IfOk result (λ r. HasSpent budget.new (verdict_of r)) }
        ensures knows { IfOk result (λ r. Knows decider.new (found (verdict_of r) stack.new)) }
        ensures store { OnOk result (KnowsMore decider.old.store decider.new.store) }
        ensures rest { without_words stack.new ≡ without_words stack.old }
        ensures sound { OnOk result (IsTrue (asked_in (state_of stack.old)) decider.new.store.arena
            decider.new.store.graph.memo self.new.evidence) }
        ensures regexes { OnOk result (HaveRegexesBelow (length decider.new.store.arena) self.new.evidence.atoms) }
        ensures declared { OnOk result (are_declared (state_of stack.old).sorts self.new.evidence.atoms ≡ true) }
        ensures begun { self.new.begun ≡ self.old.begun }
        ensures levels { OnOk result (HaveLevels (asked_in (state_of stack.old)).live self.old.evidence
            → HaveLevels (asked_in (state_of stack.old)).live self.new.evidence) }
        ensures counts { CountsTapeFault result (L.Tape.faults tape.old) (L.Tape.faults tape.new) }
    {
        if let Decided::Outside = decided {
            return Ok(Solution::Outside);
        }
        fragment_is_of_each();
        if let Some(empty) = self.evidence.refuted() {
            return Ok(Solution::Unsat {
                clause: empty.clause,
                core: no_assumptions(self.alloc),
            });
        }
        let _given = stack.assumptions();
        follows_by_rule();
        line_stays_sound();
        counted_again_stays_sound();
        *budget = Budget::new(u64::MAX);
        let solved = searched(
            self.alloc,
            &mut self.evidence,
            decider,
            stack,
            decided,
            proves,
            tape,
            budget,
        )?;
        let solution = completed(self.alloc, decider, stack, &self.evidence, solved)?;
        Ok(solution)
    }
}

/// No assumptions.
fn no_assumptions(alloc: Global) -> Vec<Assumption>
    ensures { result.items ≡ [] }
{
    Vec::new(alloc)
}

/// What a search comes to over the live assertions that it is asked about, under the assumptions; where there are
/// neither it finds no words and no truth values, and nothing is searched.
fn searched<L: Tape>(
    alloc: Global,
    evidence: &mut Evidence,
    decider: &mut Decider,
    stack: &Stack,
    decided: Decided,
    proves: bool,
    tape: &mut L,
    budget: &mut Budget,
) -> Result<Solved, TapeFault>
    requires knows { Knows decider.old stack.now }
    requires inside { list_all is_decided (live (state_of stack.now)) ≡ true }
    requires asked { IsAsked decider.old stack.now decided }
    requires terms { AreTerms (asked_in (state_of stack.now)) }
    requires sorted { list_all is_well_sorted (live_terms (state_of stack.now)) ≡ true }
    requires regexes { HaveRegexesBelow (length decider.old.store.arena) evidence.old.atoms }
    requires declared { are_declared (state_of stack.now).sorts evidence.old.atoms ≡ true }
    requires sound { IsTrue (asked_in (state_of stack.now)) decider.old.store.arena decider.old.store.graph.memo
        evidence.old }
    ensures puts { OnOk result (proves ≡ true → (before : AllKept)
        → Backs decider.old.store.arena decider.old.store.graph.memo evidence.old before
        → IsCounted (asked_in (state_of stack.now)) before budget.old
        → Evidences (asked_in (state_of stack.now)) before decider.new.store.arena decider.new.store.graph.memo
        evidence.new budget.new (L.Tape.told tape.old) (L.Tape.told tape.new)) }
    ensures solved { IfOk result
        (Finds decider.new stack.now decider.old.store evidence.old evidence.new budget.new) }
    ensures sound { OnOk result (proves ≡ false → IsTrue (asked_in (state_of stack.now)) decider.new.store.arena
        decider.new.store.graph.memo evidence.new) }
    ensures limit { OnOk result (budget.new.limit ≡ budget.old.limit) }
    ensures knows { OnOk result (Knows decider.new stack.now) }
    ensures store { OnOk result (KnowsMore decider.old.store decider.new.store) }
    ensures regexes { OnOk result (HaveRegexesBelow (length decider.new.store.arena) evidence.new.atoms) }
    ensures declared { OnOk result (are_declared (state_of stack.now).sorts evidence.new.atoms ≡ true) }
    ensures levels { OnOk result (HaveLevels (asked_in (state_of stack.now)).live evidence.old
        → HaveLevels (asked_in (state_of stack.now)).live evidence.new) }
    ensures counts { CountsTapeFault result (L.Tape.faults tape.old) (L.Tape.faults tape.new) }
{
    knows_grown();
    ready_grown();
    normal_has_terms_words();
    let _assertions = stack.assertions();
    let places = asked_places(alloc, decider, decided)?;
    if are_none(&places, stack.assumptions()) {
        return Ok(Solved::Sat {
            words: Vec::new(alloc),
            truths: Vec::new(alloc),
        });
    }
    let solved = solve(
        alloc,
        evidence,
        &mut decider.store,
        stack,
        &places,
        proves,
        tape,
        budget,
    )?;
    Ok(solved)
}

/// Whether there is neither a place nor an assumption.
fn are_none(places: &[usize], given: &[Assumption]) -> bool
    ensures places { result ≡ true → length places.now ≡ 0 }
    ensures given { result ≡ true → length given.now ≡ 0 }
{
    if places.len() > 0 {
        return false;
    }
    given.len() == 0
}

/// The places of the live assertions that a search is asked about: where a constant has no word those of its
/// memberships, which refute the check, else those of other structure and the memberships of their constants.
fn asked_places(
    alloc: Global,
    decider: &Decider,
    decided: Decided,
) -> Result<Vec<usize>, AllocError>
    requires { decided ≡ Decided.Dead → IsSome decider.now.dead }
    ensures { IfOk result (λ places. (stack : Stacked) → Knows decider.now stack
        → IsAsked decider.now stack decided → AreAsked decider.now.others.items stack decided places.items) }
{
    match decided {
        Decided::Dead => Vec::from_slice(alloc, decider.clash()),
        _ => decider.question(alloc),
    }
}

/// What a search found of the constants that occur in assertions of other structure or are assumed, with the word that
/// its memberships give each other constant; or the assumptions that the clause denies which it came to.
fn completed(
    alloc: Global,
    decider: &mut Decider,
    stack: &mut Stack,
    evidence: &Evidence,
    solved: Solved,
) -> Result<Solution, AllocError>
    requires knows { Knows decider.old stack.old }
    requires ready { IsReadyThen decider.old stack.old solved }
    ensures completed { IfOk result (IsCompleted decider.old stack.old evidence.now solved) }
    ensures knows { IfOk result (λ r. Knows decider.new (found (verdict_of r) stack.new)) }
    ensures rest { without_words stack.new ≡ without_words stack.old }
    ensures store { decider.new.store ≡ decider.old.store }
{
    let _count = stack.declared();
    match solved {
        Solved::Sat { words, truths } => {
            let others = truths_of(
                alloc,
                decider.spoken.as_slice(),
                stack.assumptions(),
                &truths,
            )?;
            let full = decider.close(alloc, stack, &words)?;
            Ok(Solution::Sat {
                words: full,
                truths: others,
            })
        }
        Solved::Unsat(id) => {
            let core = core_of(alloc, evidence, stack, id)?;
            Ok(Solution::Unsat { clause: id, core })
        }
        Solved::Spent => Ok(Solution::Spent),
    }
}

/// The assumptions that the clause of a number denies.
fn core_of(
    alloc: Global,
    evidence: &Evidence,
    stack: &Stack,
    id: ClauseId,
) -> Result<Vec<Assumption>, AllocError>
    ensures { IfOk result (λ core. AreDenied stack.now evidence.now id.0 core.items) }
{
    let literals = evidence.literals(id)?;
    denied(alloc, evidence.atoms(), &literals, stack.assumptions())
}

/// The truth values of these constants; each other one is false, but where it is assumed to be true.
fn truths_of(
    alloc: Global,
    serials: &[Serial],
    given: &[Assumption],
    truths: &[bool],
) -> Result<Vec<bool>, AllocError>
    ensures { IfOk result (λ others. AreTruthsOf serials.now given.now truths.now others.items) }
{
    let mut others = truths_among(alloc, serials, truths)?;
    assume_all(&mut others, given)?;
    Ok(others)
}

/// Makes true what is assumed to be.
fn assume_all(truths: &mut Vec<bool>, given: &[Assumption]) -> Result<(), AllocError>
    ensures { OnOk result ((n : ℕ) → truth_in truths.new.items n
        ≡ (truth_in truths.old.items n || is_assumed given.now n)) }
{
    for assumption in given {
        assume(truths, *assumption)?;
    }
    Ok(())
}

/// Makes a constant true that is assumed to be.
fn assume(truths: &mut Vec<bool>, assumption: Assumption) -> Result<(), AllocError>
    ensures { OnOk result ((n : ℕ) → truth_in truths.new.items n
        ≡ (truth_in truths.old.items n || ((assumption.0 == n) && assumption.1))) }
{
    let positive = assumption.positive;
    if !positive {
        return Ok(());
    }
    mark(truths, assumption.serial)
}

/// The truth values of these constants; each other one is false.
fn truths_among(alloc: Global, serials: &[Serial], truths: &[bool]) -> Result<Vec<bool>, AllocError>
    ensures { IfOk result (λ others. AreTruthsAmong serials.now truths.now others.items) }
{
    let mut others = Vec::new(alloc);
    for serial in serials {
        if truth_at(truths, serial.0 as usize) {
            mark(&mut others, *serial)?;
        }
    }
    Ok(others)
}

/// Puts the line of the verdict of what a check comes to, where lines prove it.
fn say_solution<L: Tape>(
    alloc: Global,
    stack: &Stack,
    solution: &Solution,
    proves: bool,
    tape: &mut L,
) -> Result<(), TapeFault>
    ensures told { OnOk result (proves ≡ true → L.Tape.told tape.new
        ≡ with_bytes (line (text_of (verdict_line (said_by stack.now solution.now)))) (L.Tape.told tape.old)) }
    ensures numbered { OnOk result (proves ≡ true → IsNumbered solution.now) }
    ensures counts { CountsTapeFault result (L.Tape.faults tape.old) (L.Tape.faults tape.new) }
{
    if !proves {
        return Ok(());
    }
    match solution {
        Solution::Sat { words, truths } => say_values(alloc, stack, words, truths, tape),
        Solution::Unsat { clause, .. } => say(Said::Unsat(number_of(*clause)), tape),
        Solution::Spent => say(Said::Unknown(u64::MAX), tape),
        Solution::Outside => say(Said::Unsupported, tape),
    }
}

/// The verdict of what a check comes to.
fn verdict_of(solution: Solution) -> Verdict
    ensures { result ≡ verdict_of solution }
{
    match solution {
        Solution::Sat { words, truths } => Verdict::Sat { words, truths },
        Solution::Unsat { clause: _, core } => Verdict::Unsat(core),
        Solution::Spent => Verdict::Unknown,
        Solution::Outside => Verdict::Outside,
    }
}
