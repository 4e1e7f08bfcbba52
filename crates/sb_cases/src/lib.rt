//! The files of cases, as the program that runs them reads them: `reader` has the format.
//!
//! [`case::Case`] takes the heads of one case with their blocks, one behind the other, and says what holds for a run. The
//! program above runs the solver and the checker as it says, and compares.
#![tactic(auto)]

mod block;
pub mod buffer;
pub mod case;
pub mod directive;
pub mod fault;
pub mod reader;
