//! Clauses of gates.

ghost use Rattle.std.specs.Prelude.{◌≡◌, ◌∷◌, [], map, nat_lt, true, false, length, if◌then◌else◌, IfOk};
ghost use Rattle.std.specs.List.{list_all, list_any};
ghost use Rattle.std.specs.HashSet.{contains};
ghost use Rattle.sb_lit.specs.declared.clause.Lit.{Lit};
ghost use Rattle.sb_lit.specs.Clauses.{negation, is_among, are_among};
ghost use Rattle.sb_hints.specs.Sets.{are_equal};
ghost use Rattle.sb_rulebook.specs.Brought.{is_brought_atom};
ghost use Rattle.sb_rulebook.specs.Gates.{atom_of, has_both_signs, is_set_of, is_gate_of, is_gate};
ghost use Rattle.sb_rulebook.specs.Kept.{Asked};
ghost use Rattle.sb_rulebook.specs.Lines.{rule_line, gate};
ghost use Rattle.sb_atoms.specs.Numbered.{atoms_in};
ghost use Rattle.sb_rules.specs.Kept.{IsWhole, KeepsTerms};
ghost use Rattle.sb_rules.specs.Judged.{Judges};
ghost use Rattle.sb_rules.specs.Gating.{HasLiterals};

use crate::fault::{Fault, Refusal};
use crate::kept::Kept;
use sb_atoms::{AtomId, said_clauses};
use sb_hints::{are_ascending, has_all, set_of};
use sb_lit::{Clause, Lit};
use sb_proof::Atom;
use std::alloc::{AllocError, Global};
use std::collections::HashSet;

impl Kept {
    /// Keeps a clause of known atoms, where it is one of a gate.
    pub(crate) fn add_gate(&mut self, literals: &[Lit]) -> Result<(), Fault>
        requires whole { IsWhole self.old }
        requires known { list_all (λ l. nat_lt l.atom (length self.old.atoms)) literals.now ≡ true }
        ensures judges { (asked : Asked) → Judges result asked self.old self.new (rule_line gate literals.now) }
        ensures whole { IsWhole self.new }
        ensures terms { KeepsTerms self.old self.new }
    {
        if !are_ascending(literals) {
            return Err(Fault::Refused(Refusal::RuleBroken));
        }
        if !self.is_gate(literals)? {
            return Err(Fault::Refused(Refusal::RuleBroken));
        }
        self.clauses.add(literals, 0)?;
        let gate = last_atom(literals);
        self.conjunct = if gate == self.gate {
            self.conjunct.saturating_add(1)
        } else {
            1
        };
        self.gate = gate;
        Ok(())
    }

    /// Whether a clause has a literal and its negation, or is one of a gate of one of its atoms. Where its literals
    /// ascend, linear in them and in those of these gates. Where clauses of one conjunct each come one behind the other in
    /// the order of the conjuncts, whose atoms come before the conjunction's, the time does not grow with these.
    fn is_gate(&self, literals: &[Lit]) -> Result<bool, AllocError>
        requires known { list_all (λ l. nat_lt l.atom (length self.now.atoms)) literals.now ≡ true }
        requires brought { list_all is_brought_atom self.now.atoms ≡ true }
        ensures { IfOk result (λ b. b ≡ is_gate (atoms_in self.now.arena self.now.atoms) literals.now) }
    {
        let all = set_of(self.alloc, literals)?;
        if has_both_signs(&all, literals) {
            return Ok(true);
        }
        for literal in literals {
            if self.is_gate_of(literals, &all, *literal)? {
                return Ok(true);
            }
        }
        Ok(false)
    }

    /// Whether a clause, which has no literal and its negation, is one of the gate of the atom of one of its literals.
    fn is_gate_of(
        &self,
        clause: &[Lit],
        all: &HashSet<Lit>,
        literal: Lit,
    ) -> Result<bool, AllocError>
        requires known { nat_lt literal.atom (length self.now.atoms) ≡ true }
        requires brought { list_all is_brought_atom self.now.atoms ≡ true }
        requires all { HasLiterals clause.now (contains are_equal all.now) }
        requires signs { has_both_signs clause.now ≡ false }
        requires among { is_among clause.now literal ≡ true }
        ensures { IfOk result (λ b. b ≡ is_gate_of (atoms_in self.now.arena self.now.atoms) clause.now literal
            (atom_of (atoms_in self.now.arena self.now.atoms) literal)) }
    {
        let id = AtomId::of(literal);
        if let Atom::And(conjuncts) = self.atoms.describe(id) {
            let conjuncts = conjuncts.as_slice();
            let found = is_of_conjunction(
                self.alloc,
                clause,
                all,
                literal,
                conjuncts,
                self.conjunct,
            )?;
            return Ok(found);
        }
        let said = said_clauses(self.alloc, &self.atoms, id)?;
        Ok(is_one_of(clause, all, &said))
    }
}

/// The atom of the last literal, 0 where there is none.
fn last_atom(literals: &[Lit]) -> u64 {
    match literals.last() {
        Some(literal) => literal.atom,
        None => 0,
    }
}

/// Whether the clause has a literal and its negation.
fn has_both_signs(all: &HashSet<Lit>, clause: &[Lit]) -> bool
    requires { HasLiterals clause.now (contains are_equal all.now) }
    ensures { result ≡ has_both_signs clause.now }
{
    for literal in clause {
        if all.contains(&literal.negated()) {
            return true;
        }
    }
    false
}

/// Whether the clause is one of the gate of a conjunction, whose literal this is.
fn is_of_conjunction(
    alloc: Global,
    clause: &[Lit],
    all: &HashSet<Lit>,
    literal: Lit,
    conjuncts: &[Lit],
    first: usize,
) -> Result<bool, AllocError>
    requires { HasLiterals clause.now (contains are_equal all.now) }
    ensures { IfOk result (λ b. b ≡ (if literal.positive
        then is_set_of clause.now (literal ∷ map negation conjuncts.now)
        else list_any (λ m. is_set_of clause.now (literal ∷ m ∷ [])) conjuncts.now)) }
{
    if literal.positive {
        has_each_denied(alloc, clause, all, literal, conjuncts)
    } else {
        Ok(has_one(clause, all, literal, conjuncts, first))
    }
}

/// Whether the clause is the literal with the negations of all conjuncts.
fn has_each_denied(
    alloc: Global,
    clause: &[Lit],
    all: &HashSet<Lit>,
    literal: Lit,
    conjuncts: &[Lit],
) -> Result<bool, AllocError>
    requires { HasLiterals clause.now (contains are_equal all.now) }
    ensures { IfOk result (λ b. b ≡ is_set_of clause.now (literal ∷ map negation conjuncts.now)) }
{
    let gate = with_denials(alloc, literal, conjuncts)?;
    if !has_all(all, &gate) {
        return Ok(false);
    }
    let gate = set_of(alloc, &gate)?;
    Ok(has_all(&gate, clause))
}

/// The literal, and the negations of all conjuncts.
fn with_denials(alloc: Global, literal: Lit, conjuncts: &[Lit]) -> Result<Vec<Lit>, AllocError>
    ensures { IfOk result (λ gate. gate.items ≡ literal ∷ map negation conjuncts.now) }
{
    let mut gate = Vec::new(alloc);
    gate.push(literal)?;
    for conjunct in conjuncts {
        gate.push(conjunct.negated())?;
    }
    Ok(gate)
}

/// Whether the clause is the literal with one of the conjuncts. That of the first place is looked at first.
fn has_one(
    clause: &[Lit],
    all: &HashSet<Lit>,
    literal: Lit,
    conjuncts: &[Lit],
    first: usize,
) -> bool
    requires { HasLiterals clause.now (contains are_equal all.now) }
    ensures { result ≡ list_any (λ m. is_set_of clause.now (literal ∷ m ∷ [])) conjuncts.now }
{
    if let Some(conjunct) = conjuncts.get(first) {
        if is_set_of(clause, all, &[literal, *conjunct]) {
            return true;
        }
    }
    has_any(clause, all, literal, conjuncts)
}

/// The same, from the first conjunct on.
fn has_any(clause: &[Lit], all: &HashSet<Lit>, literal: Lit, conjuncts: &[Lit]) -> bool
    requires { HasLiterals clause.now (contains are_equal all.now) }
    ensures { result ≡ list_any (λ m. is_set_of clause.now (literal ∷ m ∷ [])) conjuncts.now }
{
    for conjunct in conjuncts {
        if is_set_of(clause, all, &[literal, *conjunct]) {
            return true;
        }
    }
    false
}

/// Whether the clause has the literals of one of these clauses, and no others.
fn is_one_of(clause: &[Lit], all: &HashSet<Lit>, said: &[Clause]) -> bool
    requires { HasLiterals clause.now (contains are_equal all.now) }
    ensures { result ≡ list_any (is_set_of clause.now) said.now }
{
    for few in said {
        if is_set_of(clause, all, few.literals()) {
            return true;
        }
    }
    false
}

/// Whether the clause has these few literals, and no others.
fn is_set_of(clause: &[Lit], all: &HashSet<Lit>, few: &[Lit]) -> bool
    requires { HasLiterals clause.now (contains are_equal all.now) }
    ensures { result ≡ is_set_of clause.now few.now }
{
    are_among(clause, few) && has_all(all, few)
}

/// Whether each literal is one of the few.
pub(crate) fn are_among(literals: &[Lit], few: &[Lit]) -> bool
    ensures { result ≡ list_all (λ l. list_any (λ m. are_equal m l) few.now) literals.now }
{
    literals.iter().all(|literal| few.contains(literal))
}
