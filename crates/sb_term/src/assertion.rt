//! What a script asserts.

use crate::term::TermId;

/// An assertion of a script.
#[derive(Clone, Copy, PartialEq, Eq)]
pub struct Assertion {
    /// Its term, of sort Bool. None for a mark, which stands where an assertion was left out.
    pub term: Option<TermId>,
    /// The level that it stands on: how many pushes were in force where it was asserted.
    pub level: u64,
}
