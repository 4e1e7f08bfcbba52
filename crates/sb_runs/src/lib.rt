//! The solver and the checker of proofs, run over worlds in memory by the files of cases, which `sb_turns` goes
//! through.
//!
//! What the crate gives is [`run`], a program's work by its words: the program above is its `main` alone, since a
//! program is proved twice.
#![tactic(auto)]

mod programs;
mod sessions;

pub use programs::run;
