//! The clauses that the theory of concatenations teaches, by rules step and empty, with the atoms that they need, and
//! the lines of these.
//!
//! Step: a membership of several pieces in a regex is true exactly where that of the pieces behind the first one is, in
//! the regex to which the first one leads. A word leads to the derivative along it; where a constant leads is a
//! membership of its own, of the constant in a path. Empty: a constant's word leads to one of the regexes to which the
//! words lead that make some other memberships of it true, and it leads to one regex alone. The atoms of which the
//! clauses speak are added where they are missing, and [`define_atoms`] puts the lines of those that are new; the
//! layers above put the lines of the clauses.
#![tactic(auto)]

mod adding;
mod covering;
mod defining;
mod fronts;
mod stepping;

pub use covering::{cover_lemma, pair_lemma};
pub use defining::{copied_literals, define_atoms, put_line};
pub use stepping::{Step, step_lemma};
