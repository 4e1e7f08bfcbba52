//! Lines that give clauses.

ghost use Rattle.std.specs.Prelude.{◌≡◌, ◌<◌, ℕ, List, map, nat_lt, true, Some, length, All, IfOk};
ghost use Rattle.std.specs.List.{list_all};
ghost use Rattle.sb_rulebook.specs.Kept.{AllKept, Asked, counting, with_clause};
ghost use Rattle.sb_rulebook.specs.Lines.{assertion_line, rule_line, learned_line, empty, step};
ghost use Rattle.sb_rulebook.specs.ClauseRules.{is_translation};
ghost use Rattle.sb_rulebook.specs.Splits.{is_empty, is_step};
ghost use Rattle.sb_lit.specs.Clauses.{are_ascending};
ghost use Rattle.sb_proof.specs.Lines.{rule_in};
ghost use Rattle.sb_term.specs.Numbered.{term_at};
ghost use Rattle.sb_rules.specs.Kept.{IsWhole, IsOver, KeepsTerms, HasNumberBelow, kept_in, live_in};
ghost use Rattle.sb_rules.specs.Judged.{Judges, Meets};
ghost use Rattle.sb_rules.specs.Refuting.{IsLearned, IsFound};

use crate::fault::{Fault, Refusal};
use crate::kept::{Kept, counted};
use crate::members::{are_of, denied, member};
use crate::steps::is_step;
use sb_hints::{NotLearned, are_ascending};
use sb_lit::Lit;
use sb_plain::right_stays;
use sb_proof::Rule;
use sb_term::{Assertion, Table, TermId};
use std::alloc::AllocError;

impl Kept {
    /// Judges the line that gives the literal of a live assertion, and keeps the clause, of the assertion's level, where
    /// it follows.
    pub(crate) fn assert(
        &mut self,
        table: &Table,
        live: &[Assertion],
        place: u64,
        literal: Lit,
    ) -> Result<(), Fault>
        requires over { IsOver table.now self.old }
        requires numbers { All (HasNumberBelow (length table.now)) live.now }
        ensures judges { (asked : Asked) → asked.live ≡ map (live_in table.now) live.now
            → Judges result asked self.old self.new (assertion_line place literal) }
        ensures over { IsOver table.now self.new }
    {
        let Some(assertion) = live.get(place as usize) else {
            return Err(Fault::Refused(Refusal::UnknownId));
        };
        if !self.is_known(literal) {
            return Err(Fault::Refused(Refusal::UnknownId));
        }
        let Some(term) = assertion.term else {
            return Err(Fault::Refused(Refusal::RuleBroken));
        };
        if !self.is_asserted(table, term, literal)? {
            return Err(Fault::Refused(Refusal::RuleBroken));
        }
        self.clauses.add(&[literal], assertion.level)?;
        Ok(())
    }

    /// Whether an assertion of the term may be stated, and the literal is that of the term.
    fn is_asserted(&mut self, table: &Table, term: TermId, literal: Lit) -> Result<bool, AllocError>
        requires over { IsOver table.now self.old }
        requires number { term < length table.now }
        ensures ok { IfOk result (λ b. (others : AllKept)
            → b ≡ is_translation (kept_in self.old others).atoms (Some (term_at table.now term)) literal) }
        ensures kept { (others : AllKept) → kept_in self.new others ≡ kept_in self.old others }
        ensures over { IsOver table.now self.new }
    {
        right_stays();
        let found = self.atoms.find_translation(
            &mut self.measures,
            &mut self.normals,
            table,
            &mut self.arena,
            term,
        )?;
        Ok(is_literal(found, literal))
    }

    /// Judges the line of a clause by a rule, and keeps the clause where it follows.
    pub(crate) fn add_by_rule(
        &mut self,
        limit: u64,
        rule: Rule,
        literals: &[Lit],
    ) -> Result<(), Fault>
        requires { IsWhole self.old }
        ensures judges { (asked : Asked) → asked.limit ≡ limit
            → Judges result asked self.old self.new (rule_line (rule_in rule) literals.now) }
        ensures whole { IsWhole self.new }
        ensures terms { KeepsTerms self.old self.new }
    {
        if !self.are_known(literals) {
            return Err(Fault::Refused(Refusal::UnknownId));
        }
        match rule {
            Rule::Gate => self.add_gate(literals),
            Rule::Step => self.add_step(limit, literals),
            Rule::Empty => self.add_empty(limit, literals),
            Rule::Order | Rule::Linear => Err(Fault::Refused(Refusal::RuleBroken)),
        }
    }

    /// Keeps the clause of a step, where it is one and new.
    fn add_step(&mut self, limit: u64, literals: &[Lit]) -> Result<(), Fault>
        requires whole { IsWhole self.old }
        requires known { list_all (λ l. nat_lt l.atom (length self.old.atoms)) literals.now ≡ true }
        ensures judges { (asked : Asked) → asked.limit ≡ limit
            → Judges result asked self.old self.new (rule_line step literals.now) }
        ensures whole { IsWhole self.new }
        ensures terms { KeepsTerms self.old self.new }
    {
        if self.clauses.is_repeated(literals)? {
            return Err(Fault::Refused(Refusal::Repeated));
        }
        if !are_ascending(literals) {
            return Err(Fault::Refused(Refusal::RuleBroken));
        }
        if !self.is_step(literals)? {
            return Err(Fault::Refused(Refusal::RuleBroken));
        }
        self.add_counted(limit, literals, 0)
    }

    /// Whether the literals are a step.
    fn is_step(&mut self, literals: &[Lit]) -> Result<bool, AllocError>
        requires whole { IsWhole self.old }
        requires known { list_all (λ l. nat_lt l.atom (length self.old.atoms)) literals.now ≡ true }
        requires ascending { are_ascending literals.now ≡ true }
        ensures ok { IfOk result
            (λ b. (others : AllKept) → b ≡ is_step (kept_in self.old others).atoms literals.now) }
        ensures kept { (others : AllKept) → kept_in self.new others ≡ kept_in self.old others }
        ensures whole { IsWhole self.new }
        ensures terms { KeepsTerms self.old self.new }
    {
        is_step(
            self.alloc,
            &self.atoms,
            &mut self.arena,
            &mut self.plain,
            literals,
        )
    }

    /// Keeps the clause of memberships of one constant that are not all false, where it is that and new.
    fn add_empty(&mut self, limit: u64, literals: &[Lit]) -> Result<(), Fault>
        requires whole { IsWhole self.old }
        requires known { list_all (λ l. nat_lt l.atom (length self.old.atoms)) literals.now ≡ true }
        ensures judges { (asked : Asked) → asked.limit ≡ limit
            → Judges result asked self.old self.new (rule_line empty literals.now) }
        ensures whole { IsWhole self.new }
        ensures terms { KeepsTerms self.old self.new }
    {
        if self.clauses.is_repeated(literals)? {
            return Err(Fault::Refused(Refusal::Repeated));
        }
        if !are_ascending(literals) {
            return Err(Fault::Refused(Refusal::RuleBroken));
        }
        if !self.have_no_word(literals)? {
            return Err(Fault::Refused(Refusal::RuleBroken));
        }
        self.add_counted(limit, literals, 0)
    }

    /// Keeps a clause of a level, if one more line may be counted.
    fn add_counted(&mut self, limit: u64, literals: &[Lit], level: u64) -> Result<(), Fault>
        requires { IsWhole self.old }
        ensures counts { (asked : Asked) (others : AllKept) (rests : List ℕ) → asked.limit ≡ limit
            → Meets result (counting asked (with_clause (kept_in self.old others) literals.now level rests))
            self.old self.new others }
        ensures whole { IsWhole self.new }
        ensures terms { KeepsTerms self.old self.new }
    {
        let counted = counted(self.counted, limit)?;
        self.clauses.add(literals, level)?;
        self.counted = counted;
        Ok(())
    }

    /// Whether the literals are of memberships of one constant, and where all are false, its word is in regexes whose
    /// intersection is dead.
    fn have_no_word(&mut self, literals: &[Lit]) -> Result<bool, AllocError>
        requires whole { IsWhole self.old }
        requires known { list_all (λ l. nat_lt l.atom (length self.old.atoms)) literals.now ≡ true }
        ensures ok { IfOk result
            (λ b. (others : AllKept) → b ≡ is_empty (kept_in self.old others) literals.now) }
        ensures kept { (others : AllKept) → kept_in self.new others ≡ kept_in self.old others }
        ensures whole { IsWhole self.new }
        ensures terms { KeepsTerms self.old self.new }
    {
        right_stays();
        let Some(first) = literals.first() else {
            return Ok(false);
        };
        let Some((serial, _)) = member(&self.atoms, *first) else {
            return Ok(false);
        };
        if !are_of(&self.atoms, serial, literals) {
            return Ok(false);
        }
        let ids = denied(self.alloc, &self.atoms, &mut self.arena, literals)?;
        let id = self.arena.and(&ids)?;
        Ok(self.regexes.is_dead_regex(&self.arena, id))
    }

    /// Judges the line of a learned clause, and keeps the clause where it follows.
    pub(crate) fn learn(&mut self, limit: u64, literals: &[Lit], hints: &[u64]) -> Result<(), Fault>
        requires { IsWhole self.old }
        ensures judges { (asked : Asked) → asked.limit ≡ limit
            → Judges result asked self.old self.new (learned_line literals.now hints.now) }
        ensures whole { IsWhole self.new }
        ensures terms { KeepsTerms self.old self.new }
    {
        if !self.are_known(literals) {
            return Err(Fault::Refused(Refusal::UnknownId));
        }
        let level = self.level_of(literals, hints)?;
        self.add_counted(limit, literals, level)
    }

    /// The level of a learned clause, or why it is refused.
    fn level_of(&self, literals: &[Lit], hints: &[u64]) -> Result<u64, Fault>
        ensures { IsLearned result self.now.clauses literals.now hints.now }
    {
        match self.clauses.learned(literals, hints) {
            Ok(level) => Ok(level),
            Err(NotLearned::UnknownHint) => Err(Fault::Refused(Refusal::UnknownId)),
            Err(NotLearned::Repeated) => Err(Fault::Refused(Refusal::Repeated)),
            Err(NotLearned::IdleHint) => Err(Fault::Refused(Refusal::HintIdle)),
            Err(NotLearned::NotByHints) => Err(Fault::Refused(Refusal::RuleBroken)),
            Err(NotLearned::NoMemory) => Err(Fault::NoMemory),
        }
    }
}

/// Whether the literal was found.
fn is_literal(found: Option<Lit>, literal: Lit) -> bool
    ensures { IsFound literal found result }
{
    match found {
        Some(other) => literal.atom == other.atom && literal.positive == other.positive,
        None => false,
    }
}
