//! Leaving out literals that the others of a clause imply.

ghost use Rattle.std.specs.Prelude.{◌≡◌, ℕ, ◌&&◌, not, filter, IfOk, OnOk};
ghost use Rattle.std.specs.List.{list_all};
ghost use Rattle.std.specs.HashSet.{contains};
ghost use Rattle.sb_lit.specs.declared.clause.Lit.{Lit as TheLit};
ghost use Rattle.sb_lit.specs.Clauses.{is_same_literal, is_among};
ghost use Rattle.sb_lit.specs.Kept.{kept_at};
ghost use Rattle.sb_trail.specs.Assignments.{held, IsConsistent};
ghost use Rattle.sb_analyze.specs.Assumed.{are_equal};
ghost use Rattle.sb_analyze.specs.Shown.{shown};
ghost use Rattle.sb_analyze.specs.Explained.{IsFirstUip};
ghost use Rattle.sb_analyze.specs.Minimising.{is_other, is_implied, is_implied_by, IsMinimising};

use crate::analysis::Analysis;
use crate::assumed::set_of;
use sb_clauses::Clauses;
use sb_lit::{ClauseId, Lit};
use sb_trail::{CompactLit, Trail};
use std::alloc::{AllocError, Global};
use std::collections::HashSet;

impl Analysis {
    /// Leaves out of the clause each literal whose reason has, beside its negation, only other literals of the clause.
    /// The reason becomes a hint.
    pub(crate) fn minimise(
        &mut self,
        alloc: Global,
        trail: &Trail,
        clauses: &Clauses,
    ) -> Result<(), AllocError>
        requires consistent { IsConsistent (held trail.now.literals) }
        ensures { OnOk result ((level : ℕ) (left : TheLit)
            → IsFirstUip clauses.now trail.now.literals level (shown self.old) left
            → IsFirstUip clauses.now trail.now.literals level (shown self.new) left) }
    {
        let mut standing = set_of(alloc, &self.clause)?;
        let order = Vec::from_slice(alloc, &self.clause)?;
        for literal in &order {
            self.leave_out(&mut standing, trail, clauses, *literal)?;
        }
        self.clause = those_of(alloc, &self.clause, &standing)?;
        Ok(())
    }

    /// Leaves the literal out, if the others that stand imply it by its reason.
    fn leave_out(
        &mut self,
        standing: &mut HashSet<Lit>,
        trail: &Trail,
        clauses: &Clauses,
        literal: Lit,
    ) -> Result<(), AllocError>
        requires consistent { IsConsistent (held trail.now.literals) }
        ensures { OnOk result ((level : ℕ) (left : TheLit)
            → IsMinimising clauses.now trail.now.literals level left (shown self.old)
            (contains are_equal standing.old)
            → IsMinimising clauses.now trail.now.literals level left (shown self.new)
            (contains are_equal standing.new)) }
    {
        let Some(reason) = trail.reason(literal.atom) else {
            return Ok(());
        };
        if !is_implied_by(clauses, standing, literal, reason) {
            return Ok(());
        }
        self.reasons.push(reason)?;
        take_out(standing, literal);
        Ok(())
    }
}

/// The literals that the set has.
fn those_of(
    alloc: Global,
    literals: &[Lit],
    standing: &HashSet<Lit>,
) -> Result<Vec<Lit>, AllocError>
    ensures { IfOk result (λ those. those.items ≡ filter (contains are_equal standing.now) literals.now) }
{
    let mut those = Vec::new(alloc);
    for literal in literals {
        if standing.contains(literal) {
            those.push(*literal)?;
        }
    }
    Ok(those)
}

/// Takes a literal out of the set.
fn take_out(standing: &mut HashSet<Lit>, literal: Lit)
    ensures { (m : TheLit) → contains are_equal standing.new m
        ≡ (contains are_equal standing.old m && not (is_same_literal m literal)) }
{
    standing.remove(&literal);
}

/// Whether the literal stands, and the clause of the number forces its negation where the others that stand are false.
fn is_implied_by(clauses: &Clauses, standing: &HashSet<Lit>, literal: Lit, reason: ClauseId) -> bool
    ensures { result ≡ is_implied_by (contains are_equal standing.now) literal (kept_at clauses.now reason.0) }
{
    match clauses.literals(reason) {
        Some(literals) => is_implied(standing, literal, literals),
        None => false,
    }
}

/// Whether the literal stands, and the clause forces its negation where the others that stand are false.
fn is_implied(standing: &HashSet<Lit>, literal: Lit, reason: &[CompactLit]) -> bool
    ensures { result ≡ is_implied (contains are_equal standing.now) literal reason.now }
{
    standing.contains(&literal)
        && has(reason, literal.negated())
        && are_others(standing, literal, reason)
}

/// Whether the literal is one of these.
fn has(literals: &[CompactLit], literal: Lit) -> bool
    ensures { result ≡ is_among literals.now literal }
{
    literals.iter().any(|other| other.literal() == literal)
}

/// Whether each literal of the reason is the negation of this one, or another one that stands.
fn are_others(standing: &HashSet<Lit>, literal: Lit, reason: &[CompactLit]) -> bool
    ensures { result ≡ list_all (is_other (contains are_equal standing.now) literal) reason.now }
{
    reason
        .iter()
        .all(|other| is_other(standing, literal, other.literal()))
}

/// Whether a literal is the negation of this one, or another one that stands.
fn is_other(standing: &HashSet<Lit>, literal: Lit, other: Lit) -> bool
    ensures { result ≡ is_other (contains are_equal standing.now) literal other }
{
    other == literal.negated() || (standing.contains(&other) && other != literal)
}
