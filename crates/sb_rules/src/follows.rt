//! Judging a line.

ghost use Rattle.std.specs.Prelude.{◌≡◌, length, All};
ghost use Rattle.sb_rulebook.specs.Kept.{Asked};
ghost use Rattle.sb_proof.specs.Lines.{line_in};
ghost use Rattle.sb_rules.specs.Kept.{IsOver, IsAsked, HasNumberBelow};
ghost use Rattle.sb_rules.specs.Judged.{Judges};

use crate::fault::{Fault, Refusal};
use crate::kept::Kept;
use sb_problem::normals_stay;
use sb_proof::Line;
use sb_term::{Assertion, Sort, Table};

impl Kept {
    /// Judges a line of the proof, where these assertions are live, constants of these sorts are declared (by serial),
    /// and this is the limit in force, and keeps what the line says where it follows. A line that is first or last of a
    /// proof, or a verdict, is misplaced here.
    ///
    /// A line costs what it holds, and what its rule must look at: the normal form of the regex that it defines or of
    /// the intersection that its clause speaks of; the derivatives by the characters between which an expansion
    /// changes, or along the word that a step takes off; the literals of its hints, or of the gates that its clause may
    /// be of, and the kept clauses that may be a part of it. After want of memory what is kept is as before, but that
    /// the atom of the line may be kept.
    pub fn follows(
        &mut self,
        table: &Table,
        live: &[Assertion],
        sorts: &[Sort],
        limit: u64,
        line: &Line,
    ) -> Result<(), Fault>
        requires over { IsOver table.now self.old }
        requires numbers { All (HasNumberBelow (length table.now)) live.now }
        ensures judges { (asked : Asked) → IsAsked table.now live.now sorts.now limit asked
            → Judges result asked self.old self.new (line_in line.now) }
        ensures over { IsOver table.now self.new }
    {
        normals_stay();
        match line {
            Line::Regex(node) => self.define(node),
            Line::Atom(atom) => self.define_atom(sorts, atom),
            Line::Expansion(number, classes) => self.expand(limit, *number, classes),
            Line::Dead(numbers) => self.bury(numbers),
            Line::Assertion(place, literal) => self.assert(table, live, *place, *literal),
            Line::Rule(rule, literals) => self.add_by_rule(limit, *rule, literals),
            Line::Learned(literals, hints) => self.learn(limit, literals, hints),
            Line::Header(_) | Line::Verdict(_) | Line::End => {
                Err(Fault::Refused(Refusal::Misplaced))
            }
        }
    }
}
