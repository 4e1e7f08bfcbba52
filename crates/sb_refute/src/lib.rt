//! The evidence of an `unsat`: the clauses that stand in a proof of the live assertions.
//!
//! An [`Evidence`] puts the clause of a live assertion, with the atoms and the regexes of which it speaks and the
//! clauses of these atoms' gates. A search takes it apart into its [`Parts`], and it is put together again with what
//! that learned, the empty clause of the lowest level among it. The one idea is that what a reader of the proof keeps
//! is tied to the evidence by one relation, [`Backs`](../specs/Backing.antt), which holds from call to call. The layer
//! above asks for the clauses, and for those that say which memberships without constants are true, searches over them,
//! and puts the verdict.
#![tactic(auto)]

mod bare;
mod evidence;
mod gates;

pub use bare::Bare;
pub use evidence::{Asserted, EmptyClause, Evidence, Parts};
