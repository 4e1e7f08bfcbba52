//! Walks along the pieces of memberships.

ghost use Rattle.std.specs.Prelude.{◌≡◌, ◌<◌, [], Some, get_or, length, IfOk, OnOk};
ghost use Rattle.sb_lit.specs.Budgets.{Spending};
ghost use Rattle.sb_split.specs.Steps.{IsStepAt};
ghost use Rattle.sb_theory.specs.Words.{bool_atom, regex_at};
ghost use Rattle.sb_theory.specs.Strings.{Holds, IsOfMembership, IsWrong, Keeps, Stands};
ghost use Rattle.sb_theory.specs.Walks.{Counts, HasMembership, HasRegex, IfBetween, IfLed, IsBase, IsBetween, IsInRegex, IsNotable, IsNoted, IsOfRest, IsOpenLead, IsWalked, IsWeighed, Leaves, Notes, Widens, has_row, is_done, pieces_at, rows_of};

use super::Strings;
use crate::joined::{behind_word, leading};
use crate::member::membership;
use crate::row::row_of;
use sb_atoms::{AtomId, Atoms};
use sb_clash::{least_word, tick};
use sb_graph::Explored;
use sb_lang::constructors::mkpath_keeps_language;
use sb_lang::derivative::{derivative_along_has_rests, nullable_has_empty_word};
use sb_lang::order::order_tells_apart;
use sb_lit::{Budget, Clause, Lit};
use sb_proof::{Atom, Tape, TapeFault};
use sb_regex::RegexId;
use sb_split::{Step, define_atoms, step_lemma};
use sb_store::regexes_grow;
use sb_term::Serial;
use sb_trace::Expand;
use sb_trail::Trail;
use std::alloc::{AllocError, Global};

/// What a walk comes to.
#[derive(Drop)]
pub(crate) enum Walked {
    /// The literal is to be decided.
    Ask(Lit),
    /// The clause, by rule step, is false on the trail.
    Step(Clause),
    /// It goes on with this literal.
    To(Lit),
    /// An atom that has a value was noted, so that all is to be taken in once more.
    Noted,
    /// The budget is spent.
    Spent,
}

impl Strings {
    /// Walks along the pieces of a literal that the words make false, until it comes to a membership that has no value,
    /// or to a step that is false.
    pub(super) fn walk<L: Tape>(
        &mut self,
        trail: &Trail,
        wrong: Lit,
        tape: &mut L,
        budget: &mut Budget,
    ) -> Result<Walked, TapeFault>
        requires stands { Stands self.old trail.now.literals }
        requires whole { self.old.taken.items ≡ trail.now.literals }
        requires settled { self.old.changed ≡ [] }
        requires wrong { IsWrong self.old trail.now.literals wrong }
        ensures { Leaves (IsWalked self.old self.new trail.now.literals 0 budget.old budget.new (L.Tape.told tape.old)
            (L.Tape.told tape.new)) self.old self.new budget.old budget.new (L.Tape.faults tape.old)
            (L.Tape.faults tape.new) result }
    {
        let mut at = wrong;
        loop {
            let walked = self.go(trail, at, tape, budget)?;
            match walked {
                Walked::To(next) => at = next,
                end => return Ok(end),
            }
        }
    }

    /// One step of a walk.
    fn go<L: Tape>(
        &mut self,
        trail: &Trail,
        at: Lit,
        tape: &mut L,
        budget: &mut Budget,
    ) -> Result<Walked, TapeFault>
        requires stands { Stands self.old trail.now.literals }
        requires whole { self.old.taken.items ≡ trail.now.literals }
        requires settled { self.old.changed ≡ [] }
        requires wrong { IsWrong self.old trail.now.literals at }
        ensures { Leaves (IsWalked self.old self.new trail.now.literals (pieces_at self.old at.atom) budget.old
            budget.new (L.Tape.told tape.old) (L.Tape.told tape.new)) self.old self.new budget.old budget.new
            (L.Tape.faults tape.old) (L.Tape.faults tape.new) result }
    {
        derivative_along_has_rests();
        nullable_has_empty_word();
        mkpath_keeps_language();
        order_tells_apart();
        let found = self.between(trail, at, tape, budget)?;
        let Some(between) = found else {
            return Ok(Walked::Spent);
        };
        let given = self.steps(trail, at, between, tape)?;
        let Some(step) = given else { unreachable!() };
        let again = self.note_both(trail, &step)?;
        if again {
            return Ok(Walked::Noted);
        }
        let ended = self.weigh(trail, at, between, step)?;
        Ok(ended)
    }

    /// The regex to which the word of the first constant leads, where the literal's membership begins with one and goes
    /// on, which is expanded then; else the one of the membership. None where the budget is spent.
    fn between<L: Tape>(
        &mut self,
        trail: &Trail,
        at: Lit,
        tape: &mut L,
        budget: &mut Budget,
    ) -> Result<Option<RegexId>, TapeFault>
        requires stands { Stands self.old trail.now.literals }
        requires wrong { IsWrong self.old trail.now.literals at }
        ensures { Leaves (λ found. Widens self.old self.new trail.now.literals budget.old budget.new
            (L.Tape.told tape.old) (L.Tape.told tape.new) × IfBetween self.new at budget.new found) self.old self.new
            budget.old budget.new (L.Tape.faults tape.old) (L.Tape.faults tape.new) result }
    {
        match leading(&self.atoms, at) {
            Some(pair) => self.led(trail, pair.0, pair.1, tape, budget),
            None => Ok(Some(regex_of(&self.atoms, at))),
        }
    }

    /// The regex to which the word of a constant leads, which is expanded then. None where the budget is spent.
    fn led<L: Tape>(
        &mut self,
        trail: &Trail,
        serial: Serial,
        regex: RegexId,
        tape: &mut L,
        budget: &mut Budget,
    ) -> Result<Option<RegexId>, TapeFault>
        requires stands { Stands self.old trail.now.literals }
        requires known { regex < length self.old.store.arena }
        requires names { HasMembership self.old.atoms regex }
        ensures { Leaves (λ found. Widens self.old self.new trail.now.literals budget.old budget.new
            (L.Tape.told tape.old) (L.Tape.told tape.new)
            × IfLed self.new serial.0 (regex_at self.old.store.arena regex) budget.new found) self.old self.new
            budget.old budget.new (L.Tape.faults tape.old) (L.Tape.faults tape.new) result }
    {
        let to = behind_word(&mut self.store, &self.words, serial, regex)?;
        let done = self.expands(trail, to, tape, budget)?;
        if !done {
            return Ok(None);
        }
        Ok(Some(to))
    }

    /// Expands a regex, where it is not yet, which spends a step. False where none is left.
    fn expands<L: Tape>(
        &mut self,
        trail: &Trail,
        regex: RegexId,
        tape: &mut L,
        budget: &mut Budget,
    ) -> Result<bool, TapeFault>
        requires stands { Stands self.old trail.now.literals }
        requires known { regex < length self.old.store.arena }
        requires relevant { IsOfMembership self.old.store.arena self.old.atoms regex }
        ensures { Leaves (λ done. Widens self.old self.new trail.now.literals budget.old budget.new
            (L.Tape.told tape.old) (L.Tape.told tape.new) × IsBase self.new regex budget.new done) self.old self.new
            budget.old budget.new (L.Tape.faults tape.old) (L.Tape.faults tape.new) result }
    {
        regexes_grow();
        self.trace.marks_have_numbers();
        if !self.proves {
            return Ok(self.counts(regex, budget)?);
        }
        let put = self.trace.expand(
            &mut self.store.arena,
            &mut self.store.graph,
            regex,
            tape,
            budget,
        )?;
        self.trace.marks_have_numbers();
        Ok(is_done(put))
    }

    /// Spends a step for a regex, where none was spent for it yet. False where none is left.
    fn counts(&mut self, regex: RegexId, budget: &mut Budget) -> Result<bool, AllocError>
        ensures ok { IfOk result (λ done. IsBase self.new regex budget.new done) }
        ensures counts { Counts self.old self.new budget.old budget.new }
    {
        if self.expanded.contains(&regex) {
            return Ok(true);
        }
        if !tick(budget) {
            return Ok(false);
        }
        self.expanded.insert_full(regex)?;
        Ok(true)
    }

    /// The step of a literal's membership, with the lines of the atoms that are new. Spends nothing.
    fn steps<L: Tape>(
        &mut self,
        trail: &Trail,
        at: Lit,
        between: RegexId,
        tape: &mut L,
    ) -> Result<Option<Step>, TapeFault>
        requires stands { Stands self.old trail.now.literals }
        requires wrong { IsWrong self.old trail.now.literals at }
        requires between { between < length self.old.store.arena }
        ensures step { IfOk result (IsStepAt self.new.store.arena self.new.atoms between at) }
        ensures leaves { (spending : Spending) → Leaves (λ _. Widens self.old self.new trail.now.literals spending
            spending (L.Tape.told tape.old) (L.Tape.told tape.new)) self.old self.new spending spending
            (L.Tape.faults tape.old) (L.Tape.faults tape.new) result }
    {
        regexes_grow();
        self.trace.marks_have_numbers();
        let known = self.atoms.len();
        let step = step_lemma(
            self.alloc,
            &mut self.store.arena,
            &mut self.store.plain,
            &mut self.atoms,
            at,
            between,
        )?;
        if !self.proves {
            return Ok(step);
        }
        define_atoms(
            self.alloc,
            &mut self.trace,
            &self.store.arena,
            &self.atoms,
            known,
            tape,
        )?;
        Ok(step)
    }

    /// Notes the atoms of a step. Whether one of them was new that is of one constant and has a value; then all is to
    /// be
    /// taken in once more.
    fn note_both(&mut self, trail: &Trail, step: &Step) -> Result<bool, AllocError>
        requires stands { Stands self.old trail.now.literals }
        requires lead { IsNotable self.old step.now.lead }
        requires rest { IsNotable self.old step.now.rest }
        ensures notes { IfOk result (Notes self.old self.new trail.now.literals) }
        ensures lead { OnOk result (IsNoted self.new step.now.lead) }
        ensures rest { OnOk result (IsNoted self.new step.now.rest) }
        ensures keeps { Keeps self.old self.new }
    {
        let first = self.note(trail, step.lead)?;
        let second = self.note(trail, step.rest)?;
        Ok(first || second)
    }

    /// Notes the atom of a literal. Whether it is new, of one constant, and has a value; then all is taken back.
    fn note(&mut self, trail: &Trail, literal: Option<Lit>) -> Result<bool, AllocError>
        requires stands { Stands self.old trail.now.literals }
        requires known { IsNotable self.old literal }
        ensures notes { IfOk result (Notes self.old self.new trail.now.literals) }
        ensures noted { OnOk result (IsNoted self.new literal) }
        ensures keeps { Keeps self.old self.new }
    {
        let Some(literal) = literal else {
            return Ok(false);
        };
        if self.noted.contains(literal.atom) {
            return Ok(false);
        }
        if !self.has_row(trail, literal) {
            self.noted.add(literal.atom)?;
            return Ok(false);
        }
        self.take_back();
        self.noted.add(literal.atom)?;
        Ok(true)
    }

    /// Whether the atom of a literal is of one constant and has a value.
    fn has_row(&self, trail: &Trail, literal: Lit) -> bool
        ensures { result ≡ has_row self.now.atoms trail.now.literals literal }
    {
        membership(&self.atoms, literal).is_some() && trail.value(literal.atom).is_some()
    }

    /// What a step says of the trail: the first of its literals that has no value is to be decided, that of where a
    /// constant leads as true, unless each word leads there, and that of what is left wrong. Where what is left is as
    /// it is to be, the walk goes on with it. Else the clause is false.
    fn weigh(
        &mut self,
        trail: &Trail,
        at: Lit,
        between: RegexId,
        step: Step,
    ) -> Result<Walked, AllocError>
        requires stands { Stands self.old trail.now.literals }
        requires whole { self.old.taken.items ≡ trail.now.literals }
        requires settled { self.old.changed ≡ [] }
        requires wrong { IsWrong self.old trail.now.literals at }
        requires between { IsBetween self.old at between }
        requires step { IsStepAt self.old.store.arena self.old.atoms between at (Some step) }
        requires lead { IsNoted self.old step.lead }
        requires rest { IsNoted self.old step.rest }
        ensures end { IfOk result (IsWeighed self.new trail.now.literals (pieces_at self.old at.atom)) }
        ensures rows { rows_of self.new ≡ rows_of self.old }
        ensures noted { self.new.noted ≡ self.old.noted }
        ensures keeps { Keeps self.old self.new }
    {
        derivative_along_has_rests();
        nullable_has_empty_word();
        mkpath_keeps_language();
        order_tells_apart();
        if let Some(lead) = open_lead(trail, &step) {
            let asked = self.side(lead)?;
            return Ok(Walked::Ask(asked));
        }
        Ok(weigh_rest(trail, step))
    }

    /// The literal, or its negation, where each word that makes the row of its constant true makes it true: then a
    /// clash
    /// says so.
    fn side(&mut self, lead: Lit) -> Result<Lit, AllocError>
        requires holds { Holds self.old }
        requires known { lead.atom < length self.old.atoms }
        ensures atom { IfOk result (λ literal. literal.atom ≡ lead.atom) }
        ensures rows { rows_of self.new ≡ rows_of self.old }
        ensures noted { self.new.noted ≡ self.old.noted }
        ensures keeps { Keeps self.old self.new }
    {
        regexes_grow();
        let Some(member) = membership(&self.atoms, lead) else {
            return Ok(lead);
        };
        let mut row = Vec::from_slice(self.alloc, row_of(&self.members, member.serial))?;
        row.push(lead.negated())?;
        let explored = least_word(
            self.alloc,
            &mut self.store.arena,
            &mut self.store.graph,
            &self.atoms,
            member.serial,
            &row,
            false,
        )?;
        match explored {
            Explored::Alive(_) => Ok(lead),
            Explored::Dead => Ok(lead.negated()),
        }
    }
}

/// Whether a regex is expanded.
fn is_done(put: Expand) -> bool
    ensures { result ≡ is_done put }
{
    match put {
        Expand::Expanded | Expand::Already => true,
        Expand::Spent => false,
    }
}

/// The literal of where a constant leads, where it has no value.
fn open_lead(trail: &Trail, step: &Step) -> Option<Lit>
    ensures { IsOpenLead trail.now.literals step.now result }
{
    let Some(lead) = step.lead else {
        return None;
    };
    if trail.literal_value(lead).is_some() {
        return None;
    }
    Some(lead)
}

/// What the value of what is left says, where the literal of where a constant leads is true.
fn weigh_rest(trail: &Trail, step: Step) -> Walked
    ensures { IsOfRest trail.now.literals step result }
{
    let Some(rest) = step.rest else {
        return Walked::Step(step.clause);
    };
    match trail.literal_value(rest) {
        None => Walked::Ask(rest.negated()),
        Some(true) => Walked::To(rest),
        Some(false) => Walked::Step(step.clause),
    }
}

/// The regex of a literal's membership.
fn regex_of(atoms: &Atoms, literal: Lit) -> RegexId
    requires { IsInRegex atoms.now literal.atom }
    ensures { HasRegex (get_or atoms.now literal.atom (bool_atom 0)) result }
{
    match atoms.describe(AtomId::of(literal)) {
        Atom::In(_, regex) => *regex,
        Atom::Bool(_) | Atom::Le(..) | Atom::Sum(..) | Atom::And(_) | Atom::Iff(..) =>
            unreachable!(),
    }
}
