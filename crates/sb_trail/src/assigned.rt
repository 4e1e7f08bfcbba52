//! What stands on the trail.

use sb_lit::{ClauseId, Lit};

/// A literal that is true on the trail.
#[derive(Clone, Copy, PartialEq, Eq)]
pub struct Assigned {
    pub literal: Lit,
    /// The number of decisions up to this literal, itself included.
    pub level: usize,
    /// The clause that forced the literal, none where it was decided.
    pub reason: Option<ClauseId>,
}
