//! The truth of memberships without constants, in front of a search.

ghost use Rattle.std.specs.Prelude.{◌≡◌, ◌≢◌, ◌<◌, ◌++◌, ◌∷◌, [], true, length, IfOk, OnOk};
ghost use Rattle.sb_word.specs.Words.{IsWord};
ghost use Rattle.sb_script.specs.Pieces.{word_piece};
ghost use Rattle.sb_refute.specs.Settling.{pieces_of_word};
ghost use Rattle.sb_solve.specs.Words.{CountsTapeFault, HaveRegexesBelow, IsStore, Names, Store, are_atoms, in_atom, is_atom, list_all, of_sign};
ghost use Rattle.sb_solve.specs.Settling.{IsCutAt, IsSettlement, Settles, StepsOnce};

use crate::gather::wanted;
use sb_lit::{Budget, Lit};
use sb_proof::{Tape, TapeFault};
use sb_refute::Evidence;
use sb_regex::{Arena, RegexId};
use sb_sound::memberships::{steps_are_exact, steps_hold};
use sb_sound::steps::{counted_again_stays_sound, follows_by_rule, line_stays_sound};
use sb_store::{Store, regexes_grow};
use std::alloc::{AllocError, Global};

/// Keeps clauses that say the truth of each membership without constants of which these literals speak, and answers
/// literals of atoms of which these clauses speak besides. None where the budget is spent.
///
/// A membership of a word in a regex is one of the empty word in the derivative along the word. A step of the budget
/// is spent for each clause that is new. Linear in the atoms that the literals speak of, and in the letters of their
/// words, but for what derivatives cost.
pub(crate) fn settle<L: Tape>(
    alloc: Global,
    evidence: &mut Evidence,
    store: &mut Store,
    literals: &[Lit],
    proves: bool,
    tape: &mut L,
    budget: &mut Budget,
) -> Result<Option<Vec<Lit>>, TapeFault>
    requires known { are_atoms evidence.old.atoms literals.now ≡ true }
    requires store { IsStore store.old }
    requires regexes { HaveRegexesBelow (length store.old.arena) evidence.old.atoms }
    ensures settles { IfOk result (IsSettlement proves store.old evidence.old budget.old (L.Tape.told tape.old)
        store.new evidence.new budget.new (L.Tape.told tape.new)) }
    ensures counts { CountsTapeFault result (L.Tape.faults tape.old) (L.Tape.faults tape.new) }
{
    evidence.stands();
    let asked = wanted(alloc, evidence.atoms(), literals)?;
    settle_all(
        alloc,
        evidence,
        store,
        asked.as_slice(),
        proves,
        tape,
        budget,
    )
}

/// Keeps such clauses for the atoms of these numbers.
fn settle_all<L: Tape>(
    alloc: Global,
    evidence: &mut Evidence,
    store: &mut Store,
    numbers: &[u64],
    proves: bool,
    tape: &mut L,
    budget: &mut Budget,
) -> Result<Option<Vec<Lit>>, TapeFault>
    requires known { list_all (is_atom evidence.old.atoms) numbers.now ≡ true }
    requires store { IsStore store.old }
    requires regexes { HaveRegexesBelow (length store.old.arena) evidence.old.atoms }
    ensures settles { IfOk result (IsSettlement proves store.old evidence.old budget.old (L.Tape.told tape.old)
        store.new evidence.new budget.new (L.Tape.told tape.new)) }
    ensures counts { CountsTapeFault result (L.Tape.faults tape.old) (L.Tape.faults tape.new) }
{
    let mut ends = Vec::new(alloc);
    for atom in numbers {
        let done = settle_one(evidence, store, *atom, proves, &mut ends, tape, budget)?;
        if !done {
            return Ok(None);
        }
    }
    Ok(Some(ends))
}

/// Keeps such clauses for the atom of a number, and puts a literal behind the others where they speak of another atom.
/// False where the budget is spent.
fn settle_one<L: Tape>(
    evidence: &mut Evidence,
    store: &mut Store,
    atom: u64,
    proves: bool,
    ends: &mut Vec<Lit>,
    tape: &mut L,
    budget: &mut Budget,
) -> Result<bool, TapeFault>
    requires known { atom < length evidence.old.atoms }
    requires store { IsStore store.old }
    requires regexes { HaveRegexesBelow (length store.old.arena) evidence.old.atoms }
    ensures settles { IfOk result (Settles proves store.old evidence.old budget.old (L.Tape.told tape.old)
        ends.old.items store.new evidence.new budget.new (L.Tape.told tape.new) ends.new.items) }
    ensures counts { CountsTapeFault result (L.Tape.faults tape.old) (L.Tape.faults tape.new) }
{
    let found = evidence.bare(atom)?;
    let Some(bare) = found else {
        return Ok(true);
    };
    settle_bare(
        evidence,
        store,
        atom,
        bare.word.as_slice(),
        bare.regex,
        proves,
        ends,
        tape,
        budget,
    )
}

/// The same for the membership of a word in a regex.
fn settle_bare<L: Tape>(
    evidence: &mut Evidence,
    store: &mut Store,
    atom: u64,
    word: &[u32],
    regex: RegexId,
    proves: bool,
    ends: &mut Vec<Lit>,
    tape: &mut L,
    budget: &mut Budget,
) -> Result<bool, TapeFault>
    requires names { Names evidence.old.atoms atom (in_atom (pieces_of_word word.now) regex) }
    requires word { IsWord word.now }
    requires store { IsStore store.old }
    requires regexes { HaveRegexesBelow (length store.old.arena) evidence.old.atoms }
    ensures settles { IfOk result (Settles proves store.old evidence.old budget.old (L.Tape.told tape.old)
        ends.old.items store.new evidence.new budget.new (L.Tape.told tape.new) ends.new.items) }
    ensures counts { CountsTapeFault result (L.Tape.faults tape.old) (L.Tape.faults tape.new) }
{
    if word.is_empty() {
        return settle_end(evidence, &store.arena, atom, regex, proves, tape, budget);
    }
    settle_word(
        evidence, store, atom, word, regex, proves, ends, tape, budget,
    )
}

/// The same for the membership of a word that is not empty.
fn settle_word<L: Tape>(
    evidence: &mut Evidence,
    store: &mut Store,
    atom: u64,
    word: &[u32],
    regex: RegexId,
    proves: bool,
    ends: &mut Vec<Lit>,
    tape: &mut L,
    budget: &mut Budget,
) -> Result<bool, TapeFault>
    requires names { Names evidence.old.atoms atom (in_atom (word_piece word.now ∷ []) regex) }
    requires word { IsWord word.now }
    requires store { IsStore store.old }
    requires regexes { HaveRegexesBelow (length store.old.arena) evidence.old.atoms }
    ensures settles { IfOk result (Settles proves store.old evidence.old budget.old (L.Tape.told tape.old)
        ends.old.items store.new evidence.new budget.new (L.Tape.told tape.new) ends.new.items) }
    ensures counts { CountsTapeFault result (L.Tape.faults tape.old) (L.Tape.faults tape.new) }
{
    regexes_grow();
    follows_by_rule();
    line_stays_sound();
    counted_again_stays_sound();
    let rest = store.plain.along(&mut store.arena, word, regex)?;
    let end = evidence.ends(&store.arena, rest, tape)?;
    let settled = settle_end(evidence, &store.arena, end, rest, proves, tape, budget)?;
    if !settled {
        return Ok(false);
    }
    let truth = store.arena.nullable(rest);
    let done = cut(evidence, atom, end, truth, proves, tape, budget)?;
    if !done {
        return Ok(false);
    }
    put_end(ends, end)?;
    Ok(true)
}

/// Keeps the clause that the atom of a number is as true as the empty word is in its regex. False where the budget is
/// spent.
fn settle_end<L: Tape>(
    evidence: &mut Evidence,
    arena: &Arena,
    atom: u64,
    regex: RegexId,
    proves: bool,
    tape: &mut L,
    budget: &mut Budget,
) -> Result<bool, TapeFault>
    requires names { Names evidence.old.atoms atom (in_atom [] regex) }
    requires regexes { HaveRegexesBelow (length arena.now) evidence.old.atoms }
    ensures steps { IfOk result (λ done. (x : Store) → x.arena ≡ arena.now → StepsOnce proves x evidence.old
        budget.old (L.Tape.told tape.old) evidence.new budget.new (L.Tape.told tape.new) done) }
    ensures counts { CountsTapeFault result (L.Tape.faults tape.old) (L.Tape.faults tape.new) }
{
    steps_are_exact();
    steps_hold();
    let positive = arena.nullable(regex);
    evidence.step(&[Lit { atom, positive }], proves, tape, budget)
}

/// Keeps the clause that the atom of a word in a regex is true, or false, where the one is so that the empty word is in
/// the derivative along the word. False where the budget is spent.
fn cut<L: Tape>(
    evidence: &mut Evidence,
    atom: u64,
    end: u64,
    truth: bool,
    proves: bool,
    tape: &mut L,
    budget: &mut Budget,
) -> Result<bool, TapeFault>
    requires known { (atom < length evidence.old.atoms) × (end < length evidence.old.atoms) }
    requires apart { atom ≢ end }
    ensures steps { IfOk result (λ done. (x : Store) → HaveRegexesBelow (length x.arena) evidence.old.atoms
        → IsCutAt x.arena evidence.old.atoms atom end → StepsOnce proves x evidence.old budget.old
        (L.Tape.told tape.old) evidence.new budget.new (L.Tape.told tape.new) done) }
    ensures counts { CountsTapeFault result (L.Tape.faults tape.old) (L.Tape.faults tape.new) }
{
    steps_are_exact();
    steps_hold();
    let one = Lit {
        atom,
        positive: truth,
    };
    let other = Lit {
        atom: end,
        positive: !truth,
    };
    if atom < end {
        return evidence.step(&[one, other], proves, tape, budget);
    }
    evidence.step(&[other, one], proves, tape, budget)
}

/// Puts the literal behind the others that an atom is true.
fn put_end(ends: &mut Vec<Lit>, end: u64) -> Result<(), AllocError>
    ensures { OnOk result (ends.new.items ≡ ends.old.items ++ of_sign true end ∷ []) }
{
    ends.push(Lit {
        atom: end,
        positive: true,
    })?;
    Ok(())
}
