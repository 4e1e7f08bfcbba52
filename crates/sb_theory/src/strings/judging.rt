//! What is to be said of concatenations, where the words fit the rows.

ghost use Rattle.std.specs.Prelude.{◌≡◌, [], true, None, IfOk, IfSome, OnOk};
ghost use Rattle.sb_trail.specs.Assignments.{value_of};
ghost use Rattle.sb_trace.specs.Putting.{CountsTapeFault};
ghost use Rattle.sb_theory.specs.Strings.{Holds, IsLook, Keeps, Stands};
ghost use Rattle.sb_theory.specs.Judged.{AreJudged, IsDecided, IsSaid, IsTakenBack, PutsStep, is_again, is_wrong_by};
ghost use Rattle.sb_theory.specs.Walks.{IsFalseStep, rows_of};
ghost use Rattle.sb_theory.specs.Wanted.{is_wanted};

use super::Strings;
use super::walking::Walked;
use crate::fit::fits;
use crate::joined::is_joined;
use crate::member::forget;
use sb_clash::tick;
use sb_lit::{Budget, Clause, Lit};
use sb_proof::{Line, Rule, Tape, TapeFault};
use sb_search::Checked;
use sb_sound::memberships::{steps_are_exact, steps_hold};
use sb_split::{copied_literals, put_line};
use sb_trail::Trail;
use std::alloc::AllocError;

impl Strings {
    /// What is to be said of concatenations: which one is to be decided, where some may still be open, else what comes
    /// of all of them. Where none is wanted, nothing is looked at.
    pub(super) fn look_on<L: Tape>(
        &mut self,
        trail: &Trail,
        last: bool,
        tape: &mut L,
        budget: &mut Budget,
    ) -> Result<Checked, TapeFault>
        requires stands { Stands self.old trail.now.literals }
        requires whole { self.old.taken.items ≡ trail.now.literals }
        requires settled { self.old.changed ≡ [] }
        ensures { IsLook self.old self.new trail.now.literals budget.old budget.new (L.Tape.told tape.old)
            (L.Tape.told tape.new) (L.Tape.faults tape.old) (L.Tape.faults tape.new) last result }
    {
        if !last {
            let answer = self.decide(trail)?;
            return Ok(answer);
        }
        if self.joined.len() == 0 {
            return Ok(Checked::Fine);
        }
        self.judge(trail, tape, budget)
    }

    /// Wishes for the first wanted membership of several pieces that has no value, as the words have it.
    fn decide(&mut self, trail: &Trail) -> Result<Checked, AllocError>
        requires { Holds self.old }
        ensures ok { IfOk result (IsDecided self.new trail.now.literals) }
        ensures rows { rows_of self.new ≡ rows_of self.old }
        ensures noted { self.new.noted ≡ self.old.noted }
        ensures keeps { Keeps self.old self.new }
    {
        let Some(atom) = open_atom(trail, &self.joined) else {
            return Ok(Checked::Fine);
        };
        let literal = Lit {
            atom,
            positive: true,
        };
        let positive = fits(&mut self.store, &self.atoms, &self.words, literal)?;
        Ok(Checked::Ask(Lit { atom, positive }))
    }

    /// The last noted membership of several pieces on the trail that the words make false. Linear in the trail behind
    /// it.
    fn last_wrong(&mut self, trail: &Trail) -> Result<Option<Lit>, AllocError>
        requires { Holds self.old }
        ensures ok { IfOk result (AreJudged self.new trail.now.literals) }
        ensures rows { rows_of self.new ≡ rows_of self.old }
        ensures noted { self.new.noted ≡ self.old.noted }
        ensures keeps { Keeps self.old self.new }
    {
        let entries = trail.literals();
        let mut place = entries.len();
        while place > 0 {
            place -= 1;
            let literal = entries[place].literal();
            if self.is_wrong(literal)? {
                return Ok(Some(literal));
            }
        }
        Ok(None)
    }

    /// Whether a literal is of a noted membership of several pieces, and the words make it false.
    fn is_wrong(&mut self, literal: Lit) -> Result<bool, AllocError>
        requires { Holds self.old }
        ensures ok { IfOk result (λ b. b ≡ is_wrong_by self.new literal) }
        ensures rows { rows_of self.new ≡ rows_of self.old }
        ensures noted { self.new.noted ≡ self.old.noted }
        ensures keeps { Keeps self.old self.new }
    {
        if !self.noted.contains(literal.atom) {
            return Ok(false);
        }
        if !is_joined(&self.atoms, literal.atom) {
            return Ok(false);
        }
        let fits = fits(&mut self.store, &self.atoms, &self.words, literal)?;
        Ok(!fits)
    }

    /// What comes of the concatenations, all of which have values: nothing is wrong, where the words fit them, or those
    /// that are found as a hint.
    fn judge<L: Tape>(
        &mut self,
        trail: &Trail,
        tape: &mut L,
        budget: &mut Budget,
    ) -> Result<Checked, TapeFault>
        requires stands { Stands self.old trail.now.literals }
        requires whole { self.old.taken.items ≡ trail.now.literals }
        requires settled { self.old.changed ≡ [] }
        ensures { IsLook self.old self.new trail.now.literals budget.old budget.new (L.Tape.told tape.old)
            (L.Tape.told tape.new) (L.Tape.faults tape.old) (L.Tape.faults tape.new) true result }
    {
        let Some(_wrong) = self.last_wrong(trail)? else {
            return Ok(Checked::Fine);
        };
        self.suggest(trail)?;
        let found = self.clash_on(trail)?;
        match found {
            None => self.refute(trail, tape, budget),
            Some(serial) => self.clash(trail, serial, true, tape, budget),
        }
    }

    /// What comes of walks along the last wrong one, until no atom of one constant is noted for it that has a value.
    fn refute<L: Tape>(
        &mut self,
        trail: &Trail,
        tape: &mut L,
        budget: &mut Budget,
    ) -> Result<Checked, TapeFault>
        requires stands { Stands self.old trail.now.literals }
        requires whole { self.old.taken.items ≡ trail.now.literals }
        requires settled { self.old.changed ≡ [] }
        ensures { IsLook self.old self.new trail.now.literals budget.old budget.new (L.Tape.told tape.old)
            (L.Tape.told tape.new) (L.Tape.faults tape.old) (L.Tape.faults tape.new) true result }
    {
        loop {
            let Some(wrong) = self.last_wrong(trail)? else {
                return Ok(Checked::Fine);
            };
            let walked = self.walk(trail, wrong, tape, budget)?;
            if !is_again(&walked) {
                return self.say(trail, walked, tape, budget);
            }
            self.take_in(trail)?;
            let found = self.clash_on(trail)?;
            if let Some(serial) = found {
                return self.clash(trail, serial, true, tape, budget);
            }
        }
    }

    /// What comes of a walk that has ended, as an answer.
    fn say<L: Tape>(
        &mut self,
        trail: &Trail,
        walked: Walked,
        tape: &mut L,
        budget: &mut Budget,
    ) -> Result<Checked, TapeFault>
        requires stands { Stands self.old trail.now.literals }
        requires ends { IsSaid self.old trail.now.literals budget.old walked }
        ensures { IsLook self.old self.new trail.now.literals budget.old budget.new (L.Tape.told tape.old)
            (L.Tape.told tape.new) (L.Tape.faults tape.old) (L.Tape.faults tape.new) true result }
    {
        let _trail = trail.literals();
        match walked {
            Walked::Ask(literal) => Ok(Checked::Ask(literal)),
            Walked::Step(clause) => self.step(trail, clause, tape, budget),
            Walked::Spent => Ok(Checked::Spent),
            Walked::To(_) | Walked::Noted => unreachable!(),
        }
    }

    /// The clause as a lemma by rule step, with its line where such are put, and a step of the budget.
    fn step<L: Tape>(
        &mut self,
        trail: &Trail,
        clause: Clause,
        tape: &mut L,
        budget: &mut Budget,
    ) -> Result<Checked, TapeFault>
        requires stands { Stands self.old trail.now.literals }
        requires step { IsFalseStep self.old trail.now.literals clause }
        ensures { IsLook self.old self.new trail.now.literals budget.old budget.new (L.Tape.told tape.old)
            (L.Tape.told tape.new) (L.Tape.faults tape.old) (L.Tape.faults tape.new) true result }
    {
        steps_hold();
        steps_are_exact();
        if !tick(budget) {
            return Ok(Checked::Spent);
        }
        if !self.proves {
            return Ok(Checked::Lemma(clause));
        }
        self.put_step(&clause, tape)?;
        Ok(Checked::Lemma(clause))
    }

    /// Puts the line of a clause by rule step.
    fn put_step<L: Tape>(&self, clause: &Clause, tape: &mut L) -> Result<(), TapeFault>
        ensures told { OnOk result (PutsStep clause.now (L.Tape.told tape.old) (L.Tape.told tape.new)) }
        ensures counts { CountsTapeFault result (L.Tape.faults tape.old) (L.Tape.faults tape.new) }
    {
        let literals = copied_literals(self.alloc, clause.literals())?;
        put_line(Line::Rule(Rule::Step, literals), tape)
    }

    /// Takes all off that was taken in.
    pub(super) fn take_back(&mut self)
        requires { Holds self.old }
        ensures back { IsTakenBack self.old self.new }
        ensures keeps { Keeps self.old self.new }
    {
        while let Some(entry) = self.taken.pop() {
            forget(&self.noted, &self.atoms, &mut self.members, entry.literal());
        }
    }
}

/// The first of some atoms that has no value.
fn open_atom(trail: &Trail, atoms: &[u64]) -> Option<u64>
    ensures unset { IfSome result (λ atom. value_of trail.now.literals atom ≡ None) }
    ensures listed { IfSome result (λ atom. is_wanted atoms.now atom ≡ true) }
{
    for atom in atoms {
        match trail.value(*atom) {
            None => return Some(*atom),
            Some(_) => {}
        }
    }
    None
}

/// Whether a walk ended since an atom was noted that has a value.
fn is_again(walked: &Walked) -> bool
    ensures { result ≡ is_again walked.now }
{
    match walked {
        Walked::Noted => true,
        Walked::Ask(_) | Walked::Step(_) | Walked::To(_) | Walked::Spent => false,
    }
}
