//! The search: a loop that decides, propagates, asks a theory, learns from conflicts and goes back, until a trail is
//! full, or the assumptions are refuted, or a budget is spent.
//!
//! It is generic over a [`Theory`], which says which atoms are wanted, and answers what is true so far with lemmas.
//! Nothing of a theory is known here but the laws that stand at the trait. What the crate gives is [`search`]; the
//! layer above implements the trait, keeps the clauses of its assertions, and reads the trail or the clause that was
//! found.
//!
//! The turns of a search end by the budget and the theory's measure: each conflict that is learned from spends a step,
//! each lemma and each literal that is asked for spends one or lets the measure fall, and each other turn makes the
//! trail longer.
#![tactic(auto)]

mod choices;
mod conflict;
mod found;
mod lemma;
mod lines;
mod restarts;
mod rounds;
mod stage;
mod theory;
mod turn;

pub use choices::Choices;
pub use found::Found;
pub use rounds::search;
pub use theory::{Checked, Theory};
