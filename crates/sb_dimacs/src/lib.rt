//! Searches over clauses in DIMACS, and the cases that show what they come to: clauses are read a line at a time, and
//! searched as the solver does, over a theory of which all is known; the lines that a search puts are followed as a
//! reader of proofs follows them.
//!
//! What the crate gives is [`run`], a program's work by its words: the program above is its `main` alone, since a program
//! is proved twice.
#![tactic(auto)]

mod cases;
mod failure;
mod reading;
mod replayed;
mod rounds;
mod steps;
mod text;
mod theory;
mod words;

pub use words::run;
