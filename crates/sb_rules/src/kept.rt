//! What is kept of a proof.

ghost use Rattle.std.specs.Prelude.{◌≡◌, ◌+◌, ℕ, List, IfOk};
ghost use Rattle.sb_meaning.specs.Terms.{Term};
ghost use Rattle.sb_rulebook.specs.Kept.{AllKept, nothing_kept};
ghost use Rattle.sb_rules.specs.Kept.{IsOver, kept_in, left_in};
ghost use Rattle.sb_rules.specs.Judged.{HasRoom};

use crate::fault::{Fault, Refusal};
use crate::known::KnownRegexes;
use sb_atoms::Atoms;
use sb_fragment::Measures;
use sb_hints::KeptClauses;
use sb_plain::Plain;
use sb_problem::Normals;
use sb_regex::Arena;
use std::alloc::Global;

/// What is kept of a proof, by the numbers of its lines.
#[derive(Drop)]
pub struct Kept {
    pub alloc: Global,
    /// Regexes, of the proof and others.
    pub arena: Arena,
    pub plain: Plain,
    /// What is known of the script's terms.
    pub normals: Normals,
    pub measures: Measures,
    pub regexes: KnownRegexes,
    pub atoms: Atoms,
    pub clauses: KeptClauses,
    /// The lines that were counted since the last verdict.
    pub counted: u64,
    /// The greatest atom of the last clause of a gate.
    pub gate: u64,
    /// The place of the conjunct that the next clause of its gate is taken to be of, and which is looked at first.
    pub conjunct: usize,
}

impl Kept {
    /// Nothing is kept. Takes no memory.
    pub fn new(alloc: Global) -> Kept
        ensures kept { (format : ℕ) → kept_in result (nothing_kept format) ≡ nothing_kept format }
        ensures over { (ts : List Term) → IsOver ts result }
    {
        Kept {
            alloc,
            arena: Arena::new(alloc),
            plain: Plain::new(alloc),
            normals: Normals::new(alloc),
            measures: Measures::new(alloc),
            regexes: KnownRegexes::new(alloc),
            atoms: Atoms::new(alloc),
            clauses: KeptClauses::new(alloc),
            counted: 0,
            gate: 0,
            conjunct: 0,
        }
    }

    /// Drops the clauses of the levels above this one, or each clause; their numbers are not given again. What is known
    /// of regexes, of atoms and of the script's terms stays. Takes no memory; linear in the clauses that go, each with a
    /// logarithm of the number that were kept.
    pub fn leave(&mut self, level: Option<usize>)
        ensures kept { (others : AllKept) → kept_in self.new others ≡ left_in level (kept_in self.old others) }
        ensures over { (ts : List Term) → IsOver ts self.old → IsOver ts self.new }
    {
        match level {
            Some(level) => self.clauses.leave_above(level as u64),
            None => self.clauses.leave_all(),
        }
    }
}

/// The count with one more line, unless it is past the limit.
pub(crate) fn counted(count: u64, limit: u64) -> Result<u64, Fault>
    ensures { HasRoom limit count result }
{
    let most = if limit == 0 { u64::MAX } else { limit };
    if count < most {
        Ok(count + 1)
    } else {
        Err(Fault::Refused(Refusal::WrongVerdict))
    }
}
