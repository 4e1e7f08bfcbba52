//! Literals by hash.

ghost use Rattle.std.specs.Prelude.{◌≡◌, map, IfOk, OnOk, OnErr, ◌||◌, cond};
ghost use Rattle.std.specs.List.{list_all};
ghost use Rattle.std.specs.HashSet.{contains};
ghost use Rattle.sb_lit.specs.Clauses.{negation, is_among};
ghost use Rattle.sb_lit.specs.declared.clause.Lit.{Lit};
ghost use Rattle.sb_hints.specs.Sets.{are_equal};

use sb_lit::Lit;
use std::alloc::{AllocError, Global};
use std::collections::HashSet;

/// The set of these literals. Linear, by hash; `AllocError` only for want of memory.
pub fn set_of(alloc: Global, literals: &[Lit]) -> Result<HashSet<Lit>, AllocError>
    ensures { IfOk result (λ all. (l : Lit) → contains are_equal all l ≡ is_among literals.now l) }
{
    let mut all = HashSet::new(alloc);
    for literal in literals {
        all.insert(*literal)?;
    }
    Ok(all)
}

/// Whether the set has each of the literals. Looks no further than the first one that it lacks, and takes no memory.
pub fn has_all(all: &HashSet<Lit>, literals: &[Lit]) -> bool
    ensures { result ≡ list_all (contains are_equal all.now) literals.now }
{
    literals.iter().all(|literal| all.contains(literal))
}
