//! What a reader of a proof keeps, and which lines follow from it.
//!
//! A [`Kept`] holds the regexes, atoms and clauses of a proof by their numbers in it, over an arena of normal regexes.
//! The one idea is that each kind of line is judged by numbers alone: a part is looked up by its number, a regex is the
//! one of a number in the arena, a clause is looked for by its literals. A regex is normal where its constructor gives
//! its own node, and new where its number in the arena is. Classes of characters are an expansion where their ranges, in
//! order, follow one upon the other from the first character to the last, and each leads to the derivative at its first
//! character and at each cut point of the regex in it. A clause is a step where its few literals are of the memberships
//! that the rule names: their pieces are compared one by one, a word is taken off by derivatives along it, and a
//! constant by the path between the two regexes. [`Kept::follows`] answers exactly what the rules of proofs say of
//! a line. The layer above takes the lines of a proof along a script.
#![tactic(auto)]

mod atoms;
mod branches;
mod clauses;
mod expansions;
mod fault;
mod follows;
mod gates;
mod kept;
mod known;
mod members;
mod normal;
mod pieces;
mod ranges;
mod splits;
mod steps;

pub use branches::is_expansion;
pub use fault::{Fault, Refusal};
pub use kept::Kept;
pub use known::KnownRegexes;
