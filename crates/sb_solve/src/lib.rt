//! The check of live assertions of Boolean structure, by a search over the theory of strings.
//!
//! An assertion's literal is decided with the atoms that it speaks of, and with those that these speak of: [`wanted`].
//! Those of assumptions are decided first, and clauses say before that which memberships without constants are true.
//! Where a search ends with a value for each of them [`model::model`] gives out the trail's truth values and the
//! theory's words, and each of the atoms is as true as its value. The laws of [`laws`] say so, and that no values make the assertions true where a search refutes them; which assumptions it rests on says
//! [`denied`].
#![tactic(auto)]

mod check;
mod denying;
mod gather;
mod given;
pub mod laws;
pub mod model;
mod searching;
mod settling;
mod stating;

pub use check::{Solved, solve};
pub use denying::denied;
pub use gather::wanted;
pub use given::mark;
