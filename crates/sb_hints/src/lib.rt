//! The part of a checker of proofs that keeps clauses by number, and judges learned clauses by their hints.
//!
//! A [`KeptClauses`] is seen by contracts as the list of what stands at each number, and its answers are those of the
//! definitions in `sb_lit`. The one idea is that each kept clause is listed under one of its literals, the one with the
//! fewest clauses then, so that a kept part of a clause is looked for under the clause's own literals alone; a clause
//! that is dropped is found by its level, and leaves its list. Nothing here knows what an atom stands for, nor how a
//! proof is written down; the layers above bring numbers and signs.
#![tactic(auto)]

mod clauses;
mod judge;
mod levels;
mod lists;
mod rows;
mod sets;

pub use clauses::KeptClauses;
pub use judge::{NotLearned, are_ascending};
pub use sets::{has_all, set_of};
