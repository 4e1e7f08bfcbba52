//! Names and sorts: what a name stands for, and how a term is read (SMT-LIB 2.6, sections 3.5 to 3.7).
//!
//! A [`Scope`] holds the names that are in force, and [`read_term`] puts the well-sorted term of a form into a table
//! of terms, or gives the first fault in reading order. Contracts see a scope as the list of its names and the sorts
//! of the constants, and a term as the tree that its number stands for. The layer above declares names and keeps the
//! numbers of the terms that are asserted.
#![tactic(auto)]

mod annotation;
mod apply;
mod character;
mod head;
mod locals;
mod names;
mod numeral;
mod read;
mod scope;
mod text;
mod unfold;

pub use names::{begins_term, is_reserved, is_theory_name, look_up, sort_named};
pub use numeral::number_up_to;
pub use read::{Parameter, ReadFault, read_body, read_term};
pub use scope::{DeclareError, Definition, Named, Scope};
