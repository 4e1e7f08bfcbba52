//! Literals in order.

ghost use Rattle.std.specs.Prelude.{◌≡◌, IfOk};
ghost use Rattle.sb_rulebook.specs.Translation.{in_order};

use sb_lit::Lit;
use smallvec::SmallVec;
use std::alloc::{AllocError, Global};
use std::collections::BTreeSet;

/// The set of the literals.
fn set_of(alloc: Global, mut literals: Vec<Lit>) -> Result<BTreeSet<Lit>, AllocError>
    ensures { IfOk result (λ set. set.keys ≡ in_order literals.items) }
{
    let mut set = BTreeSet::new(alloc);
    while let Some(literal) = literals.pop() {
        set.insert(literal)?;
    }
    Ok(set)
}

/// The literals of a set.
fn listed(alloc: Global, set: &BTreeSet<Lit>) -> Result<SmallVec<Lit, 4>, AllocError>
    ensures { IfOk result (λ all. all.items ≡ set.now.keys) }
{
    let mut all = SmallVec::new(alloc);
    for literal in set {
        all.push(*literal)?;
    }
    Ok(all)
}

/// The literals in order, each once. In n steps of log n.
pub fn in_order(alloc: Global, literals: Vec<Lit>) -> Result<SmallVec<Lit, 4>, AllocError>
    ensures { IfOk result (λ ordered. ordered.items ≡ in_order literals.items) }
{
    listed(alloc, &set_of(alloc, literals)?)
}
