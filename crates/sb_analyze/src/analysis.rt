//! What is known of a conflict.

ghost use Rattle.std.specs.Prelude.{◌≤◌};
ghost use Rattle.std.specs.HashSet.{hash_set_len};

use sb_lit::{ClauseId, Lit};
use std::collections::HashSet;

/// What is known so far of a conflict.
#[derive(Drop)]
pub(crate) struct Analysis {
    /// Literals of levels below this one go into the clause, and all others are resolved.
    pub level: usize,
    /// The atoms of which a literal was met.
    pub seen: HashSet<u64>,
    /// How many literals were met and are still to be resolved.
    pub pending: usize,
    pub clause: Vec<Lit>,
    /// The clauses that were resolved, the conflict first.
    pub reasons: Vec<ClauseId>,
    ghost counted: { pending ≤ hash_set_len seen },
}
