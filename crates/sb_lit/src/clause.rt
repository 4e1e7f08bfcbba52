//! Literals of propositional logic, and clauses.

ghost use Rattle.std.specs.Prelude.{◌≡◌};
ghost use Rattle.std.proofs.Common.{rules};
ghost use Rattle.std.specs.Cmp.{partial_order_from_own_ties};
ghost use Rattle.std.specs.Cmp.Rules.{comparing};
ghost use Rattle.std.specs.Ordering.{as_partial_cmp};
ghost use Rattle.sb_lit.specs.Clauses.{negation, literal_order};

use std::cmp::Ordering;
use std::marker::Model;

/// A literal of propositional logic: an atom by its number, or its negation. Literals are ordered by atom,
/// the positive one first.
#[derive(Clone, Copy, Default, PartialEq, Eq, Hash)]
pub struct Lit {
    pub atom: u64,
    pub positive: bool,
}

impl Lit {
    /// The literal of the same atom with the other sign.
    pub fn negated(self) -> Lit
        ensures { result ≡ negation self }
    {
        Lit {
            atom: self.atom,
            positive: !self.positive,
        }
    }
}

impl Ord for Lit {
    ghost cmp = { literal_order };

    ghost total = { Prim.search (comparing, rules) };

    ghost matches_partial_cmp = { Prim.search (comparing, rules) };

    ghost matches_eq = { Prim.search (comparing, rules) };

    fn cmp(&self, other: &Lit) -> Ordering {
        self.atom
            .cmp(&other.atom)
            .then(other.positive.cmp(&self.positive))
    }
}

impl PartialOrd for Lit {
    ghost partial_cmp = { as_partial_cmp literal_order };

    ghost laws = { partial_order_from_own_ties (Prim.search (comparing, rules)) (Prim.search (comparing, rules)) };

    fn partial_cmp(&self, other: &Lit) -> Option<Ordering> {
        Some(self.cmp(other))
    }
}

/// The number of a clause.
#[derive(Clone, Copy, PartialEq, Eq, PartialOrd, Ord, Hash)]
pub struct ClauseId(pub u64);

/// A clause: a list of literals, of which one at least is to be true.
#[derive(Drop)]
pub struct Clause {
    literals: Vec<Lit>,
}

impl Model for Clause {
    ghost use Rattle.std.specs.Prelude.{List};
    ghost use Rattle.sb_lit.specs.declared.clause.Lit.{Lit};

    ghost Value = { List Lit };

    ghost view = { λ clause. clause.literals.items };
}

impl Clause {
    /// The clause of these literals, in their order, which may be none and may repeat. Takes no memory.
    pub fn from_literals(literals: Vec<Lit>) -> Clause
        ensures { result ≡ literals.items }
    {
        Clause { literals }
    }

    /// The literals, in order. Takes no memory.
    pub fn literals(&self) -> &[Lit]
        ensures { result.now ≡ self.now }
    {
        self.literals.as_slice()
    }
}
