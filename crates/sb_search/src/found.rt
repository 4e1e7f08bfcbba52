//! What a search comes to.

use sb_lit::ClauseId;

/// What a search comes to.
#[derive(Clone, Copy, PartialEq, Eq)]
pub enum Found {
    /// All atoms that are wanted have values, and the theory has values that agree with them.
    Sat,
    /// The kept clause of this number has negated assumptions alone.
    Unsat(ClauseId),
    /// The budget is spent.
    Spent,
}
