//! Learning from a conflict.

ghost use Rattle.std.specs.Prelude.{◌≡◌, [], Some, IfOk};
ghost use Rattle.sb_lit.specs.Kept.{KeptClause, kept_at};
ghost use Rattle.sb_analyze.specs.Reasons.{AreReasoned, highest};
ghost use Rattle.sb_analyze.specs.Learning.{IsTeaching, IsAsserting};

use crate::analysis::Analysis;
use crate::explain::{highest, highest_kept, lesson};
use crate::learned::Learned;
use sb_clauses::Clauses;
use sb_lit::ClauseId;
use sb_trail::Trail;
use std::alloc::{AllocError, Global};

/// The asserting clause of a conflict: it is found by resolving the conflict with the reasons of its newest literals
/// until one literal of the conflict's level is left, the first unique implication point. Then each literal is left out
/// whose negation the others of the clause force by one reason.
///
/// Linear in the trail's part behind that literal and in the literals of the clauses that are resolved and of the
/// reasons of the new clause's literals, and it sorts these. `AllocError` only for want of memory.
pub fn learn(
    alloc: Global,
    trail: &Trail,
    clauses: &Clauses,
    conflict: ClauseId,
) -> Result<Learned, AllocError>
    requires reasoned { AreReasoned clauses.now [] trail.now.literals }
    requires conflict { (clause : KeptClause) × IsTeaching clauses.now trail.now.literals conflict.0 clause }
    ensures { IfOk result (λ lesson. (clause : KeptClause) → kept_at clauses.now conflict.0 ≡ Some clause
        → IsAsserting clauses.now trail.now.literals (highest trail.now.literals clause.literals) lesson) }
{
    let Some(literals) = clauses.literals(conflict) else {
        unreachable!();
    };
    let entries = trail.literals();
    let mut analysis = Analysis::new(alloc, highest_kept(trail, literals));
    analysis.resolve(trail, clauses, conflict)?;
    let uip = analysis.resolve_to_first_uip(trail, clauses, entries)?;
    analysis.minimise(alloc, trail, clauses)?;
    let backjump_level = highest(trail, &analysis.clause);
    analysis.clause.push(uip.negated())?;
    Ok(lesson(analysis, clauses, backjump_level))
}
