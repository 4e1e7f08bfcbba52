//! Runs of the solver and of the checker of proofs over worlds in memory, once or in turns, as the cases of files say,
//! compared with what is wanted of them. The format of the files is told in `sb_cases`.
//!
//! What the crate gives is [`run`], a program's work by its words, over any [`Programs`]: so it stands on neither the
//! solver nor the checker, and `sb_runs` hands them in.
#![tactic(auto)]

mod compare;
mod cuts;
mod files;
mod programs;
mod report;
mod runs;
mod stage;
mod turns;
mod verdicts;

pub use files::run;
pub use programs::Programs;
