//! The clauses of gates.

ghost use Rattle.std.specs.Prelude.{◌≡◌, ◌<◌, ◌+◌, ◌++◌, ◌∷◌, [], true, false, length, All, IfOk};
ghost use Rattle.sb_atoms.specs.GateClauses.{gate_clauses, atom_at};
ghost use Rattle.sb_split.specs.Defining.{Called};
ghost use Rattle.sb_refute.specs.Backing.{HasGatesOf};
ghost use Rattle.sb_refute.specs.Lines.{IsOfGates, LeadsAlways, at_bottom};
ghost use Rattle.sb_refute.specs.Settling.{KeptStay};

use crate::evidence::Evidence;
use sb_atoms::{AtomId, gate_clauses};
use sb_lit::{Clause, Lit};
use sb_proof::{Line, Rule, Tape, TapeFault};
use sb_sound::clauses::rule_lines_are_exact;
use sb_sound::gates::gates_are_exact;
use sb_split::{copied_literals, put_line};
use std::alloc::AllocError;

impl Evidence {
    /// Puts the lines of the gates of all atoms that lack them, and keeps their clauses.
    pub(crate) fn put_gates<L: Tape>(&mut self, tape: &mut L) -> Result<(), TapeFault>
        ensures { Called result
            (λ _. LeadsAlways self.old self.new (L.Tape.told tape.old) (L.Tape.told tape.new)
            × (self.new.gates ≡ length self.new.atoms) × KeptStay self.old.kept self.new.kept)
            (self.new ≡ record self.old { kept = self.new.kept; gates = self.new.gates }) (L.Tape.faults tape.old)
            (L.Tape.faults tape.new) }
    {
        while self.lacks_gates() {
            self.put_next(tape)?;
        }
        Ok(())
    }

    /// Whether there is an atom that lacks the clauses of its gates.
    fn lacks_gates(&self) -> bool
        ensures lacking { result ≡ true → self.now.gates < length self.now.atoms }
        ensures all { result ≡ false → self.now.gates ≡ length self.now.atoms }
    {
        self.parts.gates < self.parts.atoms.len()
    }

    /// Puts the lines of the gates of the first atom that lacks them, and keeps their clauses.
    fn put_next<L: Tape>(&mut self, tape: &mut L) -> Result<(), TapeFault>
        requires { self.old.gates < length self.old.atoms }
        ensures { Called result
            (λ _. LeadsAlways self.old self.new (L.Tape.told tape.old) (L.Tape.told tape.new)
            × (self.new.gates ≡ self.old.gates + 1) × KeptStay self.old.kept self.new.kept)
            (self.new ≡ record self.old { kept = self.new.kept; gates = self.new.gates }) (L.Tape.faults tape.old)
            (L.Tape.faults tape.new) }
    {
        let clauses = self.next_clauses()?;
        for clause in &clauses {
            self.put_gate(clause, tape)?;
        }
        self.pass_gates();
        Ok(())
    }

    /// The clauses of the gates of the first atom that lacks them.
    fn next_clauses(&self) -> Result<Vec<Clause>, AllocError>
        requires { self.now.gates < length self.now.atoms }
        ensures exact { IfOk result (λ found. found.items
            ≡ gate_clauses self.now.gates (atom_at self.now.atoms self.now.gates)) }
        ensures gates { IfOk result (λ found. All (IsOfGates self.now.atoms) found.items) }
    {
        let id = AtomId::of(Lit {
            atom: self.parts.gates as u64,
            positive: true,
        });
        gate_clauses(self.alloc, &self.parts.atoms, id)
    }

    /// Keeps a clause of gates, and puts its line.
    fn put_gate<L: Tape>(&mut self, clause: &Clause, tape: &mut L) -> Result<(), TapeFault>
        requires { IsOfGates self.old.atoms clause.now }
        ensures { Called result
            (λ _. LeadsAlways self.old self.new (L.Tape.told tape.old) (L.Tape.told tape.new)
            × (self.new ≡ record self.old { kept = self.old.kept ++ at_bottom clause.now ∷ [] }))
            (self.new ≡ record self.old { kept = self.new.kept }) (L.Tape.faults tape.old) (L.Tape.faults tape.new) }
    {
        rule_lines_are_exact();
        gates_are_exact();
        let literals = copied_literals(self.alloc, clause.literals())?;
        self.add(clause.literals(), 0)?;
        put_line(Line::Rule(Rule::Gate, literals), tape)
    }

    /// The first atom that lacked the clauses of its gates has them.
    fn pass_gates(&mut self)
        requires lacking { self.old.gates < length self.old.atoms }
        requires kept { HasGatesOf self.old.gates self.old.atoms self.old.kept }
        ensures { self.new ≡ record self.old { gates = self.old.gates + 1 } }
    {
        let _count = self.parts.atoms.len();
        self.parts.gates += 1;
    }
}
