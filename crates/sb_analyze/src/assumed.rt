//! What assumptions say by themselves.

ghost use Rattle.std.specs.Prelude.{◌≡◌, find, IfOk};
ghost use Rattle.std.specs.HashSet.{contains};
ghost use Rattle.sb_lit.specs.declared.clause.Lit.{Lit as TheLit};
ghost use Rattle.sb_lit.specs.Clauses.{negation, is_among};
ghost use Rattle.sb_analyze.specs.Assumed.{are_equal};

use sb_lit::Lit;
use std::alloc::{AllocError, Global};
use std::collections::HashSet;

/// The set of these literals.
pub(crate) fn set_of(alloc: Global, literals: &[Lit]) -> Result<HashSet<Lit>, AllocError>
    ensures { IfOk result (λ all. (l : TheLit) → contains are_equal all l ≡ is_among literals.now l) }
{
    let mut all = HashSet::new(alloc);
    for literal in literals {
        all.insert(*literal)?;
    }
    Ok(all)
}

/// Whether the set has the negation of the literal.
fn has_negation(all: &HashSet<Lit>, literal: &Lit) -> bool
    ensures { result ≡ contains are_equal all.now (negation literal.now) }
{
    all.contains(&literal.negated())
}

/// The first of the assumptions that is negated by another one.
pub(crate) fn first_negated(all: &HashSet<Lit>, assumptions: &[Lit]) -> Option<Lit>
    ensures { result ≡ find (λ l. contains are_equal all.now (negation l)) assumptions.now }
{
    assumptions
        .iter()
        .copied()
        .find(|literal| has_negation(all, literal))
}
