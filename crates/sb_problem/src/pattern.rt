//! What a constant's word is asked to be in.

use sb_term::TermId;

/// What a constant's word is asked to be in, by the number of its term.
#[derive(Clone, Copy, PartialEq, Eq)]
pub enum Pattern {
    /// A regular expression.
    Expression(TermId),
    /// The word that a literal is, or a concatenation of such, and no other.
    Word(TermId),
}
