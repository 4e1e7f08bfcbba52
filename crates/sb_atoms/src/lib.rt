//! Atoms by number, and what they say: an [`Atoms`] keeps each atom once, so that equal atoms have equal numbers.
//!
//! A literal of the search speaks of an atom by its number, so an assertion's term is one literal over the table:
//! [`Atoms::translate`] gives it and adds the atoms that it needs. An atom names only literals of atoms before it.
//! Contracts see a table as the list of its atoms by number, over the numbers of regexes in an arena.
//!
//! An atom that is a conjunction of literals, or an equivalence of two, is the gate of these literals: the search takes
//! its clauses, [`gate_clauses`], and then needs to know no more of it than that it is a variable. Whether a term is
//! true under values of its constants is looked at by its shapes: the layers above try values with [`eval`] before they
//! answer with them.
#![tactic(auto)]

mod affixes;
mod atom;
mod connect;
mod connectives;
mod gates;
mod order;
mod pieces;
mod reached;
mod table;
mod translate;
mod truth;

pub use atom::AtomId;
pub use gates::{gate_clauses, said_clauses};
pub use order::in_order;
pub use table::Atoms;
pub use truth::eval;
