//! Why assumptions can't all be true.

ghost use Rattle.std.specs.Prelude.{[], IfOk};
ghost use Rattle.sb_analyze.specs.Reasons.{AreReasoned};
ghost use Rattle.sb_analyze.specs.Explained.{IsFalseOrReason, IsDecided};
ghost use Rattle.sb_analyze.specs.Cores.{AreAssumed, IsFinal, IsCore};

use crate::analysis::Analysis;
use crate::assumed::{first_negated, set_of};
use crate::explain::lesson;
use crate::learned::Learned;
use sb_clauses::Clauses;
use sb_lit::{ClauseId, Lit};
use sb_trail::Trail;
use std::alloc::{AllocError, Global};

/// Why assumptions can't all be true.
#[derive(Drop)]
pub enum Core {
    /// A kept clause has negated assumptions alone.
    Kept(ClauseId),
    /// This literal and its negation are assumptions.
    Both(Lit),
    /// A clause of negated assumptions follows from kept ones.
    New(Learned),
}

/// A clause of negated assumptions: `Kept` exactly where one is kept, else `Both` exactly where two assumptions
/// contradict each other, else `New`. The conflict is a false clause, or the reason of a false assumption; `None` only
/// where two assumptions contradict each other.
///
/// Linear in the assumptions, and in the clauses that [`Clauses::false_where`] looks at, of each up to its first literal
/// that is no negated assumption; for a new clause also in the trail and in the literals of the clauses that the
/// conflict rests on, and it sorts the new clause's literals. `AllocError` only for want of memory.
pub fn final_core(
    alloc: Global,
    trail: &Trail,
    clauses: &Clauses,
    conflict: Option<ClauseId>,
    assumptions: &[Lit],
) -> Result<Core, AllocError>
    requires reasoned { AreReasoned clauses.now [] trail.now.literals }
    requires decisions { AreAssumed assumptions.now trail.now.literals }
    requires conflict { IsFinal clauses.now trail.now.literals assumptions.now conflict }
    ensures { IfOk result (λ core. IsCore clauses.now assumptions.now core) }
{
    let kept = clauses.false_where(assumptions)?;
    if let Some(id) = kept {
        return Ok(Core::Kept(id));
    }
    let given = set_of(alloc, assumptions)?;
    if let Some(literal) = first_negated(&given, assumptions) {
        return Ok(Core::Both(literal));
    }
    let Some(id) = conflict else {
        unreachable!();
    };
    let lesson = from_decisions(alloc, trail, clauses, id)?;
    Ok(Core::New(lesson))
}

/// Explains a clause that is false, or forced a literal: by decisions, and that literal if it did.
fn from_decisions(
    alloc: Global,
    trail: &Trail,
    clauses: &Clauses,
    conflict: ClauseId,
) -> Result<Learned, AllocError>
    requires reasoned { AreReasoned clauses.now [] trail.now.literals }
    requires conflict { IsFalseOrReason clauses.now trail.now.literals conflict }
    ensures { IfOk result (IsDecided clauses.now trail.now.literals conflict) }
{
    let entries = trail.literals();
    let mut analysis = Analysis::new(alloc, 0);
    analysis.resolve(trail, clauses, conflict)?;
    let end = analysis.keep_forced(entries, conflict)?;
    analysis.resolve_all(trail, clauses, entries, end)?;
    Ok(lesson(analysis, clauses, 0))
}
