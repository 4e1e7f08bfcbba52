//! What conflicts teach: a clause for the search to go on with, or the reason why assumptions can't all be true.
//!
//! A conflict is explained along the reasons on the trail, from the newest literal back. The clauses that were met are
//! the hints, in the order of the trail, by which the rule of learned clauses accepts what comes out. The layer above
//! adds the clause, puts it into the proof with its hints, and goes back to the backjump level.
//!
//! Names. What [`learn`] gives is the asserting clause of the first unique implication point (`uip`), minimised
//! by single reasons: on the backjump level it is unit, and asserts the negation of that literal. `highest` is the decision
//! level of the conflict; `seen` are the variables that analysis has seen, and `pending` counts the seen literals of
//! that level that are not resolved yet. A `lesson` is a learned clause with its hints. A [`Core`] is what a solver
//! with assumptions calls the final conflict, or the failed assumptions.
#![tactic(auto)]

mod analysis;
mod assumed;
mod conflict;
mod cores;
mod explain;
mod learned;
mod minimise;

pub use conflict::learn;
pub use cores::{Core, final_core};
pub use learned::{Hints, Learned};
