//! The session: it reads a script from a world, and answers each of its entries before it reads on.
//!
//! [`solve_top`] is the program: it opens the script, reads it piece by piece, and hands each entry to a
//! [`Session`], which answers it by the state of the script, has the checks decided or searched, and writes their
//! proofs. [`solve_within`] is the same with another limit on what is read. The theorem of the whole, from the bytes
//! that come in to the bytes that go out, is their contract.
#![tactic(auto)]

mod command;
mod solve;

pub use command::{Session, SessionFault, Went};
pub use solve::{SolveStatus, solve_top, solve_within};
