//! The literals of the search, and what is kept of clauses.
//!
//! A [`Lit`] is an atom by its number, or its negation; a [`Clause`] is a list of literals, and contracts see it as
//! that list. The one idea is that nothing here knows what an atom stands for: what a kept clause is, when hints make a
//! learned clause follow (reverse unit propagation), and which clauses a level that is left takes along are definitions
//! over numbers and signs. The layers of the search stand on these, and so do the rules of proofs. Beside them stands a
//! [`Budget`] of steps.
#![tactic(auto)]

mod budget;
mod clause;

pub use budget::{Budget, Spent};
pub use clause::{Clause, ClauseId, Lit};
