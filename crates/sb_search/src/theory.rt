//! What a search asks of a theory.

ghost use Rattle.std.specs.Prelude.{◌≡◌, ℕ, ◌+◌, ◌^◌, ◌<◌, ◌≤◌, true, List, [], ◌∷◌, ◌++◌, length, Some, IfOk, OnOk};
ghost use Rattle.std.specs.List.{slice_get};
ghost use Rattle.sb_lit.specs.declared.clause.Lit.{Lit as TheLit};
ghost use Rattle.sb_lit.specs.Kept.{Kept};
ghost use Rattle.sb_trail.specs.declared.assigned.Assigned.{Assigned};
ghost use Rattle.sb_trail.specs.Assignments.{held, up_to};
ghost use Rattle.sb_clauses.specs.Propagation.{HasNoneFalse};
ghost use Rattle.sb_analyze.specs.Learning.{IsLesson};
ghost use Rattle.sb_rulebook.specs.Lines.{learned_line, rule_line, gate};
ghost use Rattle.sb_rulebook.specs.LineLaws.{has_text};
ghost use Rattle.sb_search.specs.Asking.{AreKnown, IsFair, Falls, CountsFaults};
ghost use Rattle.sb_search.specs.Writing.{Written, written, kept_behind, with_learned, with_gate, true_or_false};
ghost use Rattle.sb_search.specs.declared.theory.Checked.TheVariants.{Fine, Spent};

use sb_clauses::Clauses;
use sb_lit::{Budget, Clause, Lit};
use sb_proof::{Tape, TapeFault};
use sb_trail::Trail;

/// What a theory says of a trail.
#[derive(Drop)]
pub enum Checked {
    /// Nothing is wrong. Where the trail was the last one, the theory has values that agree with it.
    Fine,
    /// A clause that the theory teaches. Its line has just been put, and the search keeps it, at level 0. Where it is
    /// false on some level, or leaves one literal there, the search goes back to the lowest such level, else nowhere;
    /// then it propagates and asks again. So a theory may give one lemma after the other.
    Lemma(Clause),
    /// This literal is to be decided; it has no value.
    Ask(Lit),
    /// The budget is spent.
    Spent,
}

/// A theory about the atoms of a trail.
pub trait Theory {
    /// The atoms that are to have values in the end.
    ghost wanted: { Self → List ℕ };

    /// The atoms that the theory knows: those of its lemmas and wishes, and those that clauses may be of. They stay, and
    /// others may come.
    ghost passes: { Self → ℕ → Type 0 };

    /// The clauses that lemmas may be: those that are true by the theory alone. What it teaches it goes on to teach.
    ghost teaches: { Self → List TheLit → Type 0 };

    /// A number that falls wherever no step of the budget is spent and the trail does not just grow.
    ghost measure: { Self → Kept → List Assigned → ℕ };

    /// What the theory took in of a trail stands on this one.
    ghost stands: { Self → List Assigned → Type 0 };

    /// The values that the theory has agree with each literal of a wanted atom on the trail.
    ghost agrees: { Self → List Assigned → Type 0 };

    /// Lines were put that follow one after the other by the rules that the theory goes by. They take the one proof, of
    /// which the first theory knows, to the other one, of which the second theory knows.
    ghost puts: { Self → Self → Written → Written → Type 0 };

    /// Looks at the trail, on which no kept clause is false. `last` says that all wanted atoms have values and all
    /// assumptions are true: `Fine` then stands for values that agree. Puts the lines of what it finds, and spends a step
    /// for each that is counted.
    fn check<L: Tape>(
        &mut self,
        trail: &Trail,
        clauses: &Clauses,
        last: bool,
        tape: &mut L,
        budget: &mut Budget,
    ) -> Result<Checked, TapeFault>
        requires none_false { HasNoneFalse clauses.now (held trail.now.literals) }
        requires stands { stands self.old trail.now.literals }
        ensures stands { OnOk result (stands self.new trail.now.literals) }
        ensures wanted { wanted self.new ≡ wanted self.old }
        ensures passes { (atom : ℕ) → passes self.old atom → passes self.new atom }
        ensures teaches { (clause : List TheLit) → teaches self.old clause → teaches self.new clause }
        ensures limit { budget.new.limit ≡ budget.old.limit }
        ensures spends { budget.old.spent ≤ budget.new.spent }
        ensures within { budget.old.spent < budget.new.spent → budget.new.spent ≤ budget.new.limit }
        ensures fair { IfOk result (IsFair (passes self.new) (teaches self.new) trail.now.literals) }
        ensures agrees { IfOk result (λ answer. last ≡ true → answer ≡ Fine → agrees self.new trail.now.literals) }
        ensures spent { IfOk result (λ answer. answer ≡ Spent → budget.new.spent ≡ budget.new.limit) }
        ensures falls { IfOk result (λ answer. budget.new.spent ≡ budget.old.spent
            → Falls (measure self.old) (measure self.new) clauses.now trail.now.literals answer) }
        ensures puts { IfOk result (λ answer. puts self.old self.new
            (written clauses.now budget.old (L.Tape.told tape.old))
            (written (kept_behind clauses.now answer) budget.new (L.Tape.told tape.new))) }
        ensures counts { CountsFaults result (L.Tape.faults tape.old) (L.Tape.faults tape.new) };

    /// The levels above this one are taken back. Takes no memory.
    fn backtrack(&mut self, level: usize)
        ensures stands { (entries : List Assigned) → stands self.old entries → stands self.new (up_to level entries) }
        ensures wanted { wanted self.new ≡ wanted self.old }
        ensures passes { (atom : ℕ) → passes self.old atom → passes self.new atom }
        ensures teaches { (clause : List TheLit) → teaches self.old clause → teaches self.new clause }
        ensures falls { (kept : Kept) (entries : List Assigned) → measure self.new kept entries ≤ measure self.old kept entries }
        ensures puts { (proof : Written) → puts self.old self.new proof proof };

    /// The wanted atom at this place, `None` exactly past the last one. Takes no memory.
    fn wanted_at(&self, at: u64) -> Option<u64>
        ensures atom { result ≡ slice_get (wanted self.now) at }
        ensures small { length (wanted self.now) < 2 ^ 63 };

    /// Which value of a wanted atom the values that the theory has would give it, if it says so. No answer rests on it.
    fn phase(&self, atom: u64) -> Option<bool>;

    /// A trail that grew leaves standing what stood,
    ghost stands_longer: { (x : Self) (entries more : List Assigned) → stands x entries → stands x (entries ++ more) };

    /// and the measure does not rise there.
    ghost measure_longer: { (x : Self) (kept : Kept) (entries more : List Assigned)
        → measure x kept (entries ++ more) ≤ measure x kept entries };

    /// No line takes a proof to itself,
    ghost puts_none: { (x : Self) (proof : Written) → puts x x proof proof };

    /// and lines may follow lines.
    ghost puts_both: { (x y z : Self) (before between after : Written) → puts x y before between
        → puts y z between after → puts x z before after };

    /// The search puts the line of a clause that is learned, of known atoms and where a step is left,
    ghost puts_learned: { (x : Self) (proof : Written) (clause : List TheLit) (hints : List ℕ) (level : ℕ)
        → IsLesson proof.kept clause hints level → AreKnown (passes x) clause
        → has_text (learned_line clause hints) ≡ true → proof.budget.spent < proof.budget.limit
        → puts x x proof (with_learned clause hints level proof) };

    /// and the line of the clause that a known atom is true or false.
    ghost puts_gate: { (x : Self) (proof : Written) (atom : ℕ) → passes x atom
        → has_text (rule_line gate (true_or_false atom)) ≡ true → puts x x proof (with_gate atom proof) };
}
