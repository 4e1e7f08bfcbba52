//! What propagation comes to.

use sb_lit::ClauseId;

/// What propagation comes to.
#[derive(Clone, Copy, PartialEq, Eq)]
pub enum Propagated {
    /// No kept clause is false, and none has one literal left that has no value.
    Done,
    /// The kept clause of this number is false.
    Conflict(ClauseId),
}
