//! A learned clause with its hints.

ghost use Rattle.std.specs.Prelude.{◌≡◌, map};

use sb_lit::{Clause, ClauseId};
use std::marker::Model;

/// The numbers of the clauses by which a clause is learned, in the order in which they force literals; the last one is
/// false then.
#[derive(Drop)]
pub struct Hints {
    ids: Vec<ClauseId>,
}

impl Model for Hints {
    ghost use Rattle.std.specs.Prelude.{ℕ, List, map};

    ghost Value = { List ℕ };

    ghost view = { λ hints. map (λ id. id.0) hints.ids.items };
}

impl Hints {
    pub(crate) fn new(ids: Vec<ClauseId>) -> Hints
        ensures { result ≡ map (λ id. id.0) ids.items }
    {
        Hints { ids }
    }

    /// The numbers, in order. Takes no memory.
    pub fn ids(&self) -> &[ClauseId]
        ensures { map (λ id. id.0) result.now ≡ self.now }
    {
        &self.ids
    }
}

/// A clause that follows from kept ones.
#[derive(Drop)]
pub struct Learned {
    /// Its literals ascend.
    pub clause: Clause,
    pub hints: Hints,
    /// The level at which it holds: the greatest of those of the clauses that the hints name.
    pub level: u64,
    /// The backjump level: the least one at which the clause leaves one literal; 0 where it comes of assumptions.
    pub backjump_level: usize,
}
