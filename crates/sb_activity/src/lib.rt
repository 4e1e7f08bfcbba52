//! The order in which a search decides atoms: the most active one first, each as it was last.
//!
//! An [`Order`] holds the atoms that wait to be decided in a binary heap by activity, with the place of each: an atom
//! that was met in a conflict is bumped, and what a bump counts grows with each conflict, so that older ones fade.
//! [`Phases`] keeps the value that each atom had last. Contracts see an order as the list of who waits, and phases as
//! the list of values, both by atom; which atom comes first is promised nowhere, since no answer rests on it.
#![tactic(auto)]

mod heap;
mod order;
mod phases;

pub use order::Order;
pub use phases::Phases;
